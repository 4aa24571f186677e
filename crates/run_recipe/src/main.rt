// The running program: the recipe on standard input is read, expanded with the most fuel and the largest tables, and its term is run; its
// units and its value, or refused and the ground, is printed.
#![tactic(auto)]

ghost use Rattle.std.specs.Prelude.{◌≤◌, length};
ghost use Rattle.run_output.specs.Output.{output};
ghost use Rattle.run_output.specs.Laid.{output_most};
ghost use Rattle.program_laws.specs.Printed.{Printed};

mod line; // what is printed
mod value; // a recipe's value, in lent tables

use input::load;
use line::line;
use std::io;
use value::value;
use words::{CORE_RATE, FUEL, ITEM_WORDS, MOST_ITEMS, NAME_BYTES, TEXT_BYTES, WORK_RATE};

// Bytes of a buffer that any text fits, and that a text which is too long fills.
const BUFFER: usize = TEXT_BYTES + 1;

// Words of the tables that any recipe can be expanded in, 294,912 and 36,864. With the text and the tables of reading they are 1.5 million
// bytes of stack; beside them expansion takes at most 6.6 million (include/grebetallboy.h), which 8 MiB have room for. Running begins when
// expansion has given its stack back, and takes 0.2 million.
const WORK: usize = WORK_RATE * (MOST_ITEMS + FUEL as usize);

const CORE: usize = CORE_RATE * (MOST_ITEMS + FUEL as usize);

// Bytes of the longest output. run_output's specs/Laid.antt has the same number.
const OUTPUT: usize = 57;

// The output of a text, at the beginning of out; its length. Any output fits.
fn output(text: &[u8], out: &mut [u8]) -> usize
    requires { output_most ≤ length out.old }
    ensures { Printed (output text.now) out.old out.new result }
{
    let mut items = [0; ITEM_WORDS];
    let mut names = [0; NAME_BYTES];
    let mut work = [0; WORK];
    let mut core = [0; CORE];
    let answer = value(text, &mut items, &mut names, &mut work, &mut core);
    line(answer, out)
}

// Prints the output of a text.
fn print(rt: &(impl Print + Eprint), text: &[u8]) -> io::Result<()> {
    let mut out = [0u8; OUTPUT];
    let end = output(text, &mut out);
    match rt.write_all(&out[..end]) {
        Ok(()) => Ok(()),
        Err(e) => eprintln!(rt; "standard output: {e}"),
    }
}

// A text of more than 65,535 bytes fills the buffer, and is refused by its length. Where standard input cannot be read, standard error says
// why, and nothing is printed.
fn main(rt: HostRuntime) -> io::Result<()> {
    let mut text = [0u8; BUFFER];
    match load(&mut rt.stdin(), &mut text) {
        Ok(length) => print(&rt, &text[..length]),
        Err(e) => eprintln!(rt; "standard input: {e}"),
    }
}
