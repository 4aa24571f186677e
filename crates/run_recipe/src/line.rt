// What is printed: the units and the value, or the ground.
ghost use Rattle.std.specs.Prelude.{true, ◌++◌, ◌≤◌, length};
ghost use Rattle.std.specs.Int.{w32};
ghost use Rattle.std.proofs.Common.{to_z};
ghost use Rattle.writer.specs.Laid.{Left};
ghost use Rattle.evaluation.specs.Run.{number, boolean, datum};
ghost use Rattle.run_output.specs.Output.{acceptance};
ghost use Rattle.run_output.specs.Laid.{counted, output_most};
ghost use Rattle.program_laws.specs.Printed.{Printed};
ghost use Rattle.run_recipe.specs.Line.{header, value_of, line_of, Laid};

use runner::{Outcome, Value};
use words::ground::Ground;
use writer::bytes::{byte, copy};
use writer::numbers::{integer, numbered};

// A line of a word and a number, from a place on.
fn counted(word: &[u8], n: usize, out: &mut [u8], at: usize) -> Option<usize>
    requires { at ≤ length out.old }
    ensures { Left true (counted word.now n) at out.old out.new result }
{
    let a = copy(word, out, at, true)?;
    let b = numbered(b' ', n, out, a, true)?;
    byte(b'\n', out, b, true)
}

// accepted and the units.
fn accepted(units: usize, out: &mut [u8]) -> Option<usize>
    ensures { Left true (header units) 0 out.old out.new result }
{
    counted(b"accepted", units, out, 0)
}

// A value whose line is as given.
fn named(text: &[u8], units: usize, out: &mut [u8]) -> Option<usize>
    ensures { Left true (header units ++ text.now) 0 out.old out.new result }
{
    let a = accepted(units, out)?;
    copy(text, out, a, true)
}

fn integer_value(w: u32, units: usize, out: &mut [u8]) -> Option<usize>
    ensures { Left true (acceptance (number (to_z w32 w)) units) 0 out.old out.new result }
{
    let a = accepted(units, out)?;
    let b = integer(w, out, a, true)?;
    byte(b'\n', out, b, true)
}

fn boolean_value(b: bool, units: usize, out: &mut [u8]) -> Option<usize>
    ensures { Left true (acceptance (boolean b) units) 0 out.old out.new result }
{
    if b {
        return named(b"#t\n", units, out);
    }
    named(b"#f\n", units, out)
}

fn datum_value(place: usize, units: usize, out: &mut [u8]) -> Option<usize>
    ensures { Left true (acceptance (datum place) units) 0 out.old out.new result }
{
    let a = accepted(units, out)?;
    counted(b"datum", place, out, a)
}

// The units and a value.
fn value(value: Value, units: usize, out: &mut [u8]) -> Option<usize>
    ensures { Laid (value_of value units) out.old out.new result }
{
    match value {
        Value::Integer(w) => integer_value(w, units, out),
        Value::Boolean(b) => boolean_value(b, units, out),
        Value::Datum(place) => datum_value(place, units, out),
        Value::Closure => named(b"closure\n", units, out),
        Value::Operation => named(b"operation\n", units, out),
    }
}

fn laid(answer: Result<Outcome, Ground>, out: &mut [u8]) -> Option<usize>
    ensures { Laid (line_of answer) out.old out.new result }
{
    match answer {
        Ok(outcome) => value(outcome.value, outcome.units, out),
        Err(reason) => counted(b"refused", reason.number() as usize, out, 0),
    }
}

// The output of an answer, at the beginning of out; its length. Any output has room.
pub fn line(answer: Result<Outcome, Ground>, out: &mut [u8]) -> usize
    requires { output_most ≤ length out.old }
    ensures { Printed (line_of answer) out.old out.new result }
{
    laid(answer, out).unwrap()
}
