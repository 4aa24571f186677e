// The operations (ground 10): the first element is at most 256 distinct names above 7.
ghost use Rattle.std.specs.Prelude.{◌≡◌, true, [], ◌≤◌, length, take};
ghost use Rattle.words.specs.Limits.{names_most, operations_most};
ghost use Rattle.recipe.specs.Table.{tree_of, is_layout};
ghost use Rattle.expansion.specs.Run.{operation_numbers, are_operations};
ghost use Rattle.layout.specs.Places.{Places};

use crate::distinct;
use crate::item::{PAIR, head, kind, tail};

// Ground 10 of a table that passed ground 7, which its caller has just tested. Where it passes, `places` has the
// place + 1 of each operation by its number, 0 for every other name; where it does not, `places` is of no use.
pub fn operations(table: &[u32], places: &mut [u16]) -> bool
    requires { (is_layout table.now ≡ true) × (length places.old ≡ names_most) × (Places places.old []) }
    ensures passes { result ≡ are_operations (tree_of table.now) }
    ensures places { result ≡ true → Places places.new (operation_numbers (tree_of table.now)) }
{
    distinct::distinct_names(table, head(table, 0), 0, words::OPERATIONS, places)
}

// The operations' numbers in the order of their places, of a table past grounds 7 and 10; how many they are.
pub fn numbers(table: &[u32], list: &mut [u16]) -> usize
    requires { (is_layout table.now ≡ true) × (are_operations (tree_of table.now) ≡ true) × (operations_most ≤ length list.old) }
    ensures within { result ≤ length list.new }
    ensures numbers { take result list.new ≡ operation_numbers (tree_of table.now) }
{
    let mut i = head(table, 0);
    let mut n = 0;
    while kind(table, i) == PAIR {
        list[n] = head(table, head(table, i)) as u16;
        n += 1;
        i = tail(table, i);
    }
    n
}
