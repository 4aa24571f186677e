// One item of a table: its three words, and whether they are those of its kind.
ghost use Rattle.std.specs.Prelude.{◌≡◌, ℕ, ◌+◌, ◌*◌, ◌<◌, length};
ghost use Rattle.words.specs.Limits.{places_most};
ghost use Rattle.words.specs.Lists.{within};
ghost use Rattle.recipe.specs.Table.{kind_at, is_pair_item, is_item};
ghost use Rattle.recipe.specs.ItemLaws.{item_at};
ghost use Rattle.recipe.specs.TreeFrom.{head_at, tail_at};
ghost use Rattle.recipe.specs.Layout.{is_list_kind};

// Kinds of items.
pub use datum::kinds::{BOOLEAN, DECIMAL, EMPTY, INTEGER, NAME, PAIR};

// Item i's three words: its kind; a constant's word, a name's number or a pair's head item; a decimal's places or a pair's tail item.
#[tactic(auto, unfolding(recipe::specs::Table::kind_at))]
pub fn kind(table: &[u32], i: usize) -> u32
    requires { 3 * i + 2 < length table.now }
    ensures { result ≡ kind_at table.now i }
{
    table[3 * i]
}

#[tactic(auto, unfolding(recipe::specs::TreeFrom::head_at))]
pub fn head(table: &[u32], i: usize) -> usize
    requires { 3 * i + 2 < length table.now }
    ensures { result ≡ head_at table.now i }
{
    table[3 * i + 1] as usize
}

#[tactic(auto, unfolding(recipe::specs::TreeFrom::tail_at))]
pub fn tail(table: &[u32], i: usize) -> usize
    requires { 3 * i + 2 < length table.now }
    ensures { result ≡ tail_at table.now i }
{
    table[3 * i + 2] as usize
}

// The empty list or a pair.
#[tactic(auto, unfolding(recipe::specs::Layout::is_list_kind))]
pub fn is_list_kind(k: u32) -> bool
    ensures { result ≡ is_list_kind k }
{
    k == EMPTY || k == PAIR
}

// A pair's references point to higher items of the n, and its tail is a list.
pub(crate) fn is_pair(table: &[u32], n: usize, i: usize) -> bool
    requires { (length table.now ≡ 3 * n) × (i < n) }
    ensures { result ≡ is_pair_item table.now n (item_at table.now i) }
{
    let h = head(table, i);
    let t = tail(table, i);
    if h <= i || n <= h || t <= i || n <= t {
        return false;
    }
    is_list_kind(kind(table, t))
}

// A decimal has 1 to 4 places.
#[tactic(auto, unfolding(words::specs::Lists::within))]
fn are_places(n: usize) -> bool
    ensures { result ≡ within 1 places_most n }
{
    1 <= n && n <= words::PLACES as usize
}

// Item i, which is no pair, has the words of its kind, unused ones 0.
pub(crate) fn is_leaf(table: &[u32], i: usize) -> bool
    requires { (3 * i + 2 < length table.now) × (kind_at table.now i ≡ 4 → ⊥) }
    ensures { (n : ℕ) → result ≡ is_item table.now n (item_at table.now i) }
{
    let k = kind(table, i);
    let last = tail(table, i);
    if k == DECIMAL {
        return are_places(last);
    }
    if last != 0 {
        return false;
    }
    let word = head(table, i);
    if k == EMPTY {
        return word == 0;
    }
    if k == INTEGER {
        return true;
    }
    if k == BOOLEAN {
        return word < 2;
    }
    if k == NAME {
        return word < words::NAMES;
    }
    false
}
