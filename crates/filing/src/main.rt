// The filing program: the recipe on standard input is read, expanded and written, with document 01's fuel and tables.
#![tactic(auto)]

ghost use Rattle.std.specs.Prelude.{◌≤◌, length};
ghost use Rattle.words.specs.Limits.{filing_fuel};
ghost use Rattle.output.specs.Output.{output};
ghost use Rattle.program_laws.specs.Printed.{Printed};
ghost use Rattle.filing.specs.File.{output_most};

mod file; // the whole output of a text, in lent tables
mod lines; // the line that opens it

use file::file;
use input::load;
use std::io;
use words::{FILING_CORE, FILING_FUEL, FILING_WORK, ITEM_WORDS, NAME_BYTES, TEXT_BYTES};

// Bytes of a buffer that any text fits, and that a text which is too long fills.
const BUFFER: usize = TEXT_BYTES + 1;

// Bytes of the longest output, and some to spare. specs/File.antt has the same number.
const OUTPUT: usize = 116736;

// The output of a text, at the beginning of out; its length. Any output fits.
fn output(text: &[u8], out: &mut [u8]) -> usize
    requires { output_most ≤ length out.old }
    ensures { Printed (output text.now filing_fuel) out.old out.new result }
{
    let mut items = [0; ITEM_WORDS];
    let mut names = [0; NAME_BYTES];
    let mut work = [0; FILING_WORK];
    let mut core = [0; FILING_CORE];
    let written = file(
        text,
        FILING_FUEL,
        &mut items,
        &mut names,
        &mut work,
        &mut core,
        out,
    );
    written.unwrap_or(0)
}

// Prints the output of a text.
fn print(rt: &(impl Print + Eprint), text: &[u8]) -> io::Result<()> {
    let mut out = [0; OUTPUT];
    let end = output(text, &mut out);
    match rt.write_all(&out[..end]) {
        Ok(()) => Ok(()),
        Err(e) => eprintln!(rt; "standard output: {e}"),
    }
}

// A text of more than 65,535 bytes fills the buffer, and is refused by its length. Where standard input cannot be read, standard error says
// why, and nothing is printed.
fn main(rt: HostRuntime) -> io::Result<()> {
    let mut text = [0u8; BUFFER];
    match load(&mut rt.stdin(), &mut text) {
        Ok(length) => print(&rt, &text[..length]),
        Err(e) => eprintln!(rt; "standard input: {e}"),
    }
}
