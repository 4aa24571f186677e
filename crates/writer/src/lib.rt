// Writing: a core term's one text, or ground 19 or 20. specs/Writing.antt says what each call answers and leaves.
#![tactic(auto)]

pub mod bytes; // bytes laid into the output
mod called; // the names of variables, by number
mod names; // names as text
pub mod numbers; // decimal text
mod pieces; // what opens and closes a node
mod term; // a term's text

ghost use Rattle.std.specs.Prelude.{◌≡◌, ℕ, ◌≤◌, true, false, length};
ghost use Rattle.std.proofs.Math.Option.{some};
ghost use Rattle.datum.specs.NameTable.{name_at, has_name};
ghost use Rattle.core_term.specs.Term.{Plain};
ghost use Rattle.core_term.specs.Check.{term_of, is_term};
ghost use Rattle.core_term.specs.Text.{text};
ghost use Rattle.core_term.specs.Code.Scan.{called_in};
ghost use Rattle.writer.specs.Called.{called_by, Tells, said_by};
ghost use Rattle.writer.specs.Walk.{Begins};
ghost use Rattle.writer.specs.Writing.{text_of};
ghost use Rattle.writer.specs.Wrote.{has_room, Measured, Wrote};

use called::{Called, note};
use core_term::count_variables;
use names::Pen;
use term::term;
use words::ground::Ground;

// A term of at most so many words has at most so many bytes of text for each. core_term/specs/TextRoom.antt has the same numbers.
const TEXT_WORDS: usize = 1000000000;

const TEXT_RATE: usize = 57;

// Whether out holds the text of any term of so many words.
fn has_room(words: &[u32], out: &[u8]) -> bool
    ensures { result ≡ has_room (length words.now) (length out.now) }
{
    let count = words.len();
    if count > TEXT_WORDS {
        return false;
    }
    TEXT_RATE * count <= out.len()
}

// Whether out holds the text of words' term. Where it may be too short, a walk measures the text and lays no byte.
fn text_fits(words: &[u32], names: &[u8], out: &mut [u8], called: Called) -> bool
    requires { (Begins (said_by names.now called) false words.now) × (Tells called) × (called_by called ≡ called_in words.now) }
    ensures { (operations : ℕ) (t : Plain) → term_of operations (has_name names.now) words.now ≡ some t → Measured (text (name_at names.now) t) out.old out.new result }
{
    if has_room(words, out) {
        return true;
    }
    let measuring = Pen {
        ink: false,
        names,
        called,
    };
    term(words, out, 0, false, measuring).is_some()
}

// The text of words' term into out, with the names of its variables. No byte is laid before it is known that the text fits.
fn write_called(
    words: &[u32],
    operations: u32,
    names: &[u8],
    out: &mut [u8],
    called: Called,
) -> Result<usize, Ground>
    requires { (is_term operations (has_name names.now) words.now ≡ true) × (Tells called) × (called_by called ≡ called_in words.now) }
    ensures { Wrote (text_of words.now operations names.now) out.old out.new result }
{
    if !text_fits(words, names, out, called) {
        return Err(Ground::NoRoom);
    }
    let laying = Pen {
        ink: true,
        names,
        called,
    };
    let Some(step) = term(words, out, 0, false, laying) else {
        return Err(Ground::NoRoom);
    };
    Ok(step.end)
}

// The same, with a table that holds these names, of which there are so many.
fn write_noting(
    words: &[u32],
    operations: u32,
    names: &[u8],
    out: &mut [u8],
    count: usize,
    table: &mut [u32],
) -> Result<usize, Ground>
    requires { (is_term operations (has_name names.now) words.now ≡ true) × (count ≡ length (called_in words.now)) × (count ≤ length table.old) }
    ensures { Wrote (text_of words.now operations names.now) out.old out.new result }
{
    note(words, count, table);
    write_called(
        words,
        operations,
        names,
        out,
        Called::Table(&table[..count]),
    )
}

// Names of so many variables are noted in a table. Where a term has more, each is found in the words.
const VARIABLES: usize = 6144;

// A shorter table, for terms with no more variables than this.
const FEW: usize = 512;

// The text of words' term into out, and its length; or that they are no term (ground 19), or that out is shorter than the text (ground 20).
pub fn write(words: &[u32], operations: u32, names: &[u8], out: &mut [u8]) -> Result<usize, Ground>
    ensures { Wrote (text_of words.now operations names.now) out.old out.new result }
{
    let Some(count) = count_variables(words, operations, names) else {
        return Err(Ground::NoTerm);
    };
    if count <= FEW {
        let mut table = [0u32; FEW];
        return write_noting(words, operations, names, out, count, &mut table);
    }
    if count <= VARIABLES {
        let mut table = [0u32; VARIABLES];
        return write_noting(words, operations, names, out, count, &mut table);
    }
    write_called(words, operations, names, out, Called::Words(words))
}
