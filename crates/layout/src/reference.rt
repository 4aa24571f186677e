// All items in one pass: each is tested, and its references are counted. Then each count is tested: every item but
// item 0 is referred to by exactly one word.
ghost use Rattle.std.specs.Prelude.{◌≡◌, true, [], ◌∷◌, ◌*◌, ◌≤◌, ◌<◌, length};
ghost use Rattle.words.specs.Limits.{items_most};
ghost use Rattle.words.specs.Lists.{all_of};
ghost use Rattle.recipe.specs.Table.{items, references, is_item};
ghost use Rattle.recipe.specs.ItemLaws.{item_at};
ghost use Rattle.layout.specs.Counts.{Counted, AtMost, Referred, are_ones, items_good};

use crate::item::{PAIR, head, is_leaf, is_pair, kind, tail};

// Most recipes have at most so many items.
const FEW_ITEMS: usize = 512;

// One reference more to item k.
fn count(counts: &mut [u16], k: usize)
    requires { (k < length counts.old) × (AtMost 65534 counts.old) }
    ensures { Counted counts.old counts.new (k ∷ []) }
{
    counts[k] += 1;
}

// Item i's words are those of its kind, n items in all; a pair's references are counted.
fn takes_item(table: &[u32], n: usize, i: usize, counts: &mut [u16]) -> bool
    requires { (length table.now ≡ 3 * n) × (i < n) × (n ≤ length counts.old) × (AtMost 65533 counts.old) }
    ensures fits { result ≡ is_item table.now n (item_at table.now i) }
    ensures counts { result ≡ true → Counted counts.old counts.new (references (item_at table.now i ∷ [])) }
{
    if kind(table, i) != PAIR {
        return is_leaf(table, i);
    }
    if !is_pair(table, n, i) {
        return false;
    }
    count(counts, head(table, i));
    count(counts, tail(table, i));
    true
}

// The same of all n items.
fn items_fit(table: &[u32], n: usize, counts: &mut [u16]) -> bool
    requires { (length table.now ≡ 3 * n) × (n ≤ items_most) × (n ≤ length counts.old) × (AtMost 0 counts.old) }
    ensures fit { result ≡ all_of (is_item table.now n) (items 0 table.now) }
    ensures counts { result ≡ true → Referred table.now counts.new }
{
    for i in 0..n {
        if !takes_item(table, n, i, counts) {
            return false;
        }
    }
    true
}

// Every count of the n but the first is 1. No early exit: the loop is vectorised.
fn ones(counts: &[u16], n: usize) -> bool
    requires { (0 < n) × (n ≤ length counts.now) }
    ensures { result ≡ are_ones counts.now n }
{
    let mut wrong = 0;
    for i in 1..n {
        wrong |= counts[i] ^ 1;
    }
    wrong == 0
}

// Both tests, by a table of zeros with a count for each item.
fn items_good(table: &[u32], n: usize, counts: &mut [u16]) -> bool
    requires { (length table.now ≡ 3 * n) × (0 < n) × (n ≤ items_most) × (n ≤ length counts.old) × (AtMost 0 counts.old) }
    ensures { result ≡ items_good table.now n }
{
    if !items_fit(table, n, counts) {
        return false;
    }
    ones(counts, n)
}

// Every item's words are those of its kind, and every item but item 0 is referred to exactly once.
pub fn every_item(table: &[u32], n: usize) -> bool
    requires { (length table.now ≡ 3 * n) × (0 < n) × (n ≤ items_most) }
    ensures { result ≡ items_good table.now n }
{
    if n <= FEW_ITEMS {
        let mut few = [0u16; FEW_ITEMS];
        return items_good(table, n, &mut few);
    }
    let mut counts = [0u16; words::MOST_ITEMS];
    items_good(table, n, &mut counts)
}
