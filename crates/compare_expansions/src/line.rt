// The line that is printed: yes, no, or refused, the ground, and whose text it is about.
ghost use Rattle.std.specs.Prelude.{true, ◌≤◌, length};
ghost use Rattle.words.specs.Code.Ground.{number_of};
ghost use Rattle.writer.specs.Laid.{Left};
ghost use Rattle.program_laws.specs.Printed.{Printed};
ghost use Rattle.compare_expansions.specs.Line.{line_most, refusal, line_of};

use words::ground::Ground;
use writer::bytes::copy;
use writer::numbers::numbered;

// Whose text is refused, and why.
#[derive(Clone, Copy)]
pub enum Fault {
    Recipe(Ground),
    Text(Ground),
}

// refused, the ground, and what stands behind it.
fn refused(ground: Ground, behind: &[u8], out: &mut [u8]) -> Option<usize>
    ensures { Left true (refusal (number_of ground) behind.now) 0 out.old out.new result }
{
    let at = copy(b"refused", out, 0, true)?;
    let to = numbered(b' ', ground.number() as usize, out, at, true)?;
    copy(behind, out, to, true)
}

// The line of an answer, where the output is long enough.
fn laid(answer: Result<bool, Fault>, out: &mut [u8]) -> Option<usize>
    ensures { Left true (line_of answer) 0 out.old out.new result }
{
    match answer {
        Ok(true) => copy(b"yes\n", out, 0, true),
        Ok(false) => copy(b"no\n", out, 0, true),
        Err(Fault::Recipe(ground)) => refused(ground, b" recipe\n", out),
        Err(Fault::Text(ground)) => refused(ground, b" text\n", out),
    }
}

// The line of an answer, at the beginning of out; its length. Any line fits.
pub fn line(answer: Result<bool, Fault>, out: &mut [u8]) -> usize
    requires { line_most ≤ length out.old }
    ensures { Printed (line_of answer) out.old out.new result }
{
    match laid(answer, out) {
        Some(end) => end,
        None => 0,
    }
}
