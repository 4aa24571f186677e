// The lines that open an output, laid from a place on. Without ink nothing is laid: the same call then tells the length. Ink stays a
// flag, as the writer's is (`Left`), so that what is measured and what is laid are one function.
ghost use Rattle.std.specs.Prelude.{◌∷◌, ◌≤◌, length};
ghost use Rattle.words.specs.Code.Ground.{number_of};
ghost use Rattle.core_term.specs.Decimal.{decimal};
ghost use Rattle.output.specs.Output.{refusal, header};
ghost use Rattle.writer.specs.Laid.{Left};
ghost use Rattle.filing.specs.Lines.{counts_text};

use words::ground::Ground;
use writer::bytes::{byte, copy};
use writer::numbers::numbered;

// A space and a number.
fn number(n: u32, out: &mut [u8], at: usize, ink: bool) -> Option<usize>
    requires { at ≤ length out.old }
    ensures { Left ink (32 ∷ decimal n) at out.old out.new result }
{
    numbered(b' ', n as usize, out, at, ink)
}

// The two counts, each after a space, and the end of the line.
fn counts(steps: u32, sum: u32, out: &mut [u8], at: usize, ink: bool) -> Option<usize>
    requires { at ≤ length out.old }
    ensures { Left ink (counts_text steps sum) at out.old out.new result }
{
    let a = number(steps, out, at, ink)?;
    let b = number(sum, out, a, ink)?;
    byte(b'\n', out, b, ink)
}

// refused, the ground and the counts.
pub fn refused_line(
    ground: Ground,
    steps: u32,
    sum: u32,
    out: &mut [u8],
    at: usize,
    ink: bool,
) -> Option<usize>
    requires { at ≤ length out.old }
    ensures { Left ink (refusal (number_of ground) steps sum) at out.old out.new result }
{
    let digits = ground.number();
    let a = copy(b"refused", out, at, ink)?;
    let b = number(digits, out, a, ink)?;
    counts(steps, sum, out, b, ink)
}

// accepted and the counts.
pub fn accepted_line(steps: u32, sum: u32, out: &mut [u8], at: usize, ink: bool) -> Option<usize>
    requires { at ≤ length out.old }
    ensures { Left ink (header steps sum) at out.old out.new result }
{
    let a = copy(b"accepted", out, at, ink)?;
    counts(steps, sum, out, a, ink)
}
