// Names by spelling, over two name tables.
ghost use Rattle.std.specs.Prelude.{◌≡◌, map, ℕ, ◌<◌, length, get_or};
ghost use Rattle.words.specs.Lists.{all_of, any_of, equal};
ghost use Rattle.datum.specs.NameTable.{name_at, has_name};
ghost use Rattle.supplier.specs.Names.{Slot};

use core_term::has_name;
use reader::names::spells;
use words::SLOT;

// Name n of one table is spelled as name m of the other.
pub fn same_name(theirs: &[u8], n: usize, ours: &[u8], m: usize) -> bool
    requires { Slot theirs.now n × Slot ours.now m }
    ensures { result ≡ equal (name_at theirs.now n) (name_at ours.now m) }
{
    let start = SLOT * n;
    let from = start + 1;
    let to = from + usize::from(theirs[start]);
    spells(ours, m, &theirs[from..to])
}

// One of these numbers is that of a name spelled so.
pub fn any_name(theirs: &[u8], n: usize, ours: &[u8], numbers: &[u16]) -> bool
    requires { Slot theirs.now n × ((k : ℕ) → k < length numbers.now → Slot ours.now (get_or numbers.now k 0)) }
    ensures { result ≡ any_of (equal (name_at theirs.now n)) (map (name_at ours.now) numbers.now) }
{
    numbers
        .iter()
        .any(|&m| same_name(theirs, n, ours, usize::from(m)))
}

// Each of these numbers is that of a name in the table.
pub fn all_named(names: &[u8], numbers: &[u16]) -> bool
    ensures { result ≡ all_of (has_name names.now) numbers.now }
{
    numbers.iter().all(|&n| has_name(names, usize::from(n)))
}
