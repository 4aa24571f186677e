// Ground 19 of document 01: whether words are exactly one core term, and one that holds together.
// Its definition is term_of of specs/Check.antt; is_term says whether there is one, counted_of how many variables it binds.
#![tactic(auto)]

pub mod codes; // codes of nodes
mod flags; // the variables that are in scope
mod head; // whether a node may stand where it stands
pub mod nodes; // nodes, opened, and their shapes
mod read; // a node by its code
mod term; // a term's words

ghost use Rattle.std.specs.Prelude.{◌≡◌, ◌≤◌, length};
ghost use Rattle.datum.specs.NameTable.{has_name};
ghost use Rattle.core_term.specs.Check.{term_of, is_term, small};
ghost use Rattle.core_term.specs.Code.Counted.{counted_of};
ghost use Rattle.core_term.specs.Code.Window.{good_name};
ghost use Rattle.core_term.specs.Code.Windows.{no_flags};

use head::{Walk, name_good};
use term::{Checked, term};
use words::OPERATIONS;

// Scope is tested for so many variables at a time.
const WINDOW: usize = 4096;

// The same where there are no more words than this.
const SMALL_WINDOW: usize = 512;

// How many variables the words' term binds, if they are one. The first walk finds the term; later ones test the scope of its further
// variables, as many at a time as there are flags.
fn every_window(
    words: &[u32],
    operations: u32,
    names: &[u8],
    tabled: bool,
    flags: &mut [u8],
) -> Option<usize>
    requires { (1 ≤ length flags.old) × (flags.old ≡ no_flags (length flags.old)) }
    ensures { result ≡ counted_of (term_of operations (good_name tabled names.now) words.now) }
{
    if operations > OPERATIONS {
        return None;
    }
    let first = Walk {
        operations,
        tabled,
        base: 0,
    };
    let Checked {
        used,
        bound: variables,
    } = term(words, names, flags, first, 0, false)?;
    if used != words.len() {
        return None;
    }
    let window = flags.len();
    let mut base = 0;
    while variables - base > window {
        base += window;
        term(words, names, flags, Walk { base, ..first }, 0, false)?;
    }
    Some(variables)
}

// The window is small where the words are few.
fn count(words: &[u32], operations: u32, names: &[u8], tabled: bool) -> Option<usize>
    ensures { result ≡ counted_of (term_of operations (good_name tabled names.now) words.now) }
{
    if words.len() <= SMALL_WINDOW {
        let mut flags = [0u8; SMALL_WINDOW];
        return every_window(words, operations, names, tabled, &mut flags);
    }
    let mut flags = [0u8; WINDOW];
    every_window(words, operations, names, tabled, &mut flags)
}

// Name n is below 1,024, and its slot is in the lent table with length 1 to 63.
pub fn has_name(names: &[u8], n: usize) -> bool
    ensures { result ≡ has_name names.now n }
{
    name_good(n, names, true)
}

// How many variables the words' term binds, with names as in the lent table; none where they are no term (ground 19).
pub fn count_variables(words: &[u32], operations: u32, names: &[u8]) -> Option<usize>
    ensures { result ≡ counted_of (term_of operations (has_name names.now) words.now) }
{
    count(words, operations, names, true)
}

// Ground 19 has no objection.
pub fn is_term(words: &[u32], operations: u32, names: &[u8]) -> bool
    ensures { result ≡ is_term operations (has_name names.now) words.now }
{
    count_variables(words, operations, names).is_some()
}

// The same of a service lent no name table: names are below 1,024.
pub fn is_term_unnamed(words: &[u32], operations: u32) -> bool
    ensures { result ≡ is_term operations small words.now }
{
    count(words, operations, &[], false).is_some()
}
