// A list of distinct names, each of which passes a test: one pass, with a flag for each name.
ghost use Rattle.std.specs.Prelude.{◌≡◌, true, [], ◌^◌, ◌<◌, length};
ghost use Rattle.words.specs.Limits.{names_most};
ghost use Rattle.recipe.specs.Tree.{names};
ghost use Rattle.recipe.specs.Table.{item_count};
ghost use Rattle.recipe.specs.TreeFrom.{tree_from};
ghost use Rattle.recipe.specs.Layout.{Layout};
ghost use Rattle.layout.specs.Places.{Places, numbers};
ghost use Rattle.layout.specs.DistinctNames.{is_fit, are_names, passes};
ghost use Rattle.layout.specs.Walk.{ListItem};

use crate::item::{NAME, PAIR, head, kind, tail};

// Whether item i is a name below `low` or above 7.
fn is_fit(table: &[u32], i: usize, low: usize) -> bool
    requires { (Layout table.now) × (i < item_count table.now) }
    ensures { result ≡ is_fit (passes low) (tree_from table.now i) }
{
    if kind(table, i) != NAME {
        return false;
    }
    let number = head(table, i);
    number < low || words::BASE_NAMES <= number
}

// Whether the list that item `first` begins is one of at most `most` distinct names, each below `low` or above 7. Where it
// is, `places` has the place + 1 of each name by its number, 0 for every other name; where it is not, `places` is of no use.
pub fn distinct_names(
    table: &[u32],
    first: usize,
    low: usize,
    most: u32,
    places: &mut [u16],
) -> bool
    requires { (ListItem table.now first) × (most < 2 ^ 16) × (length places.old ≡ names_most) × (Places places.old []) }
    ensures passes { result ≡ are_names (passes low) most (tree_from table.now first) }
    ensures places { result ≡ true → Places places.new (numbers (names (tree_from table.now first))) }
{
    let mut i = first;
    let mut place = 0;
    while kind(table, i) == PAIR {
        let item = head(table, i);
        if !is_fit(table, item, low) {
            return false;
        }
        if place == most {
            return false;
        }
        let number = head(table, item);
        if places[number] != 0 {
            return false;
        }
        place += 1;
        places[number] = place as u16;
        i = tail(table, i);
    }
    true
}
