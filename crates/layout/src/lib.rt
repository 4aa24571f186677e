// The tests that expansion makes before it runs: ground 7 (the layout of the item table), 8 and 9 (fuel and lent
// tables) and 10 (the operations). None of them reads or writes the lent work and core tables.
#![tactic(auto)]

mod distinct;
pub mod item;
pub mod operation;
mod reference;

ghost use Rattle.std.specs.Prelude.{◌≡◌, true, ◌&&◌, ◌+◌, ◌*◌, ◌<◌, leb, length};
ghost use Rattle.words.specs.Limits.{fuel_most, work_rate, core_rate};
ghost use Rattle.words.specs.Lists.{all_of};
ghost use Rattle.recipe.specs.Tree.{is_list, is_list_of, element};
ghost use Rattle.recipe.specs.Table.{items, is_item, tree_of, is_layout};

// Item 0 begins the list of the two elements, the first of them a list. Each item is known to be good.
fn begins_two(table: &[u32], n: usize) -> bool
    requires { (length table.now ≡ 3 * n) × (0 < n) × (all_of (is_item table.now n) (items 0 table.now) ≡ true) }
    ensures { result ≡ (is_list_of 2 (tree_of table.now) && is_list (element 0 (tree_of table.now))) }
{
    if item::kind(table, 0) != item::PAIR {
        return false;
    }
    let second = item::tail(table, 0);
    if item::kind(table, second) != item::PAIR {
        return false;
    }
    let end = item::tail(table, second);
    if item::kind(table, end) != item::EMPTY {
        return false;
    }
    let first = item::head(table, 0);
    item::is_list_kind(item::kind(table, first))
}

// Ground 7.
pub fn is_layout(table: &[u32]) -> bool
    ensures { result ≡ is_layout table.now }
{
    let n = table.len() / 3;
    if table.len() != 3 * n || n < words::LEAST_ITEMS || words::MOST_ITEMS < n {
        return false;
    }
    reference::every_item(table, n) && begins_two(table, n)
}

// Ground 8.
pub fn fuel_fits(fuel: u32) -> bool
    ensures { result ≡ leb fuel fuel_most }
{
    fuel <= words::FUEL
}

// `rate` words for each of n items and each unit of fuel are at most this many words. No product is made, so none overflows.
fn has_room(rate: usize, n: usize, fuel: u32, length: usize) -> bool
    requires { 0 < rate }
    ensures { result ≡ leb (rate * (n + fuel)) length }
{
    let most = length / rate;
    n <= most && fuel as usize <= most - n
}

// Ground 9: a lent work table for n items, a lent core table for m.
pub fn tables_fit(n: usize, m: usize, fuel: u32, work: usize, core: usize) -> bool
    ensures { result ≡ (leb (work_rate * (n + fuel)) work && leb (core_rate * (m + fuel)) core) }
{
    has_room(words::WORK_RATE, n, fuel, work) && has_room(words::CORE_RATE, m, fuel, core)
}
