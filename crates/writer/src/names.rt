// Names as text: those of the name table, and variables with the names they were given.
ghost use Rattle.std.specs.Prelude.{◌≡◌, suc, ◌+◌, ◌<◌, ◌≤◌, true, false, length};
ghost use Rattle.datum.specs.NameTable.{name_at, has_name};
ghost use Rattle.core_term.specs.Text.{variable_text};
ghost use Rattle.writer.specs.Laid.{Left};
ghost use Rattle.writer.specs.Called.{called_by, Tells, said_of};
ghost use Rattle.writer.specs.Pieces.{formals_text};
ghost use Rattle.writer.specs.OpenedLaws.{Naming};

use crate::bytes::{byte, copy};
use crate::called::{Called, name_of};
use crate::numbers::{gap, numbered};
use words::SLOT;

// What stays the same on a walk: whether bytes are laid, the name table, and where the names of variables stand.
#[derive(Clone, Copy)]
pub struct Pen<'a> {
    pub ink: bool,
    pub names: &'a [u8],
    pub called: Called<'a>,
}

// The variables of a lambda: the first, and their count.
#[derive(Clone, Copy)]
pub struct Bound {
    pub first: usize,
    pub count: usize,
}

// The spelling of name n.
pub fn name(n: usize, names: &[u8], out: &mut [u8], at: usize, ink: bool) -> Option<usize>
    requires { (at ≤ length out.old) × (has_name names.now n ≡ true) }
    ensures { Left ink (name_at names.now n) at out.old out.new result }
{
    let start = SLOT * n;
    let from = start + 1;
    let to = from + usize::from(names[start]);
    copy(&names[from..to], out, at, ink)
}

// Variable n and its name, as v0.t.
pub fn variable(n: usize, out: &mut [u8], at: usize, pen: Pen) -> Option<usize>
    requires { (at ≤ length out.old) × (Naming (said_of pen) (suc n)) × (Tells pen.called) }
    ensures { Left pen.entry.ink (variable_text (name_at pen.entry.names.now) (called_by pen.entry.called) n) at out.old out.new result }
{
    let a = numbered(b'v', n, out, at, pen.ink)?;
    let b = byte(b'.', out, a, pen.ink)?;
    name(name_of(n, pen.called), pen.names, out, b, pen.ink)
}

// v0.t v1.u: the variables of a lambda, with spaces between.
pub fn formals(bound: Bound, out: &mut [u8], at: usize, pen: Pen) -> Option<usize>
    requires { (at ≤ length out.old) × (bound.first + bound.count < 18446744073709551616) × (Naming (said_of pen) (bound.first + bound.count)) × (Tells pen.called) }
    ensures { Left pen.entry.ink (formals_text (said_of pen.entry) false bound.first bound.count) at out.old out.new result }
{
    let mut to = at;
    for i in 0..bound.count {
        let start = gap(i > 0, out, to, pen.ink)?;
        to = variable(bound.first + i, out, start, pen)?;
    }
    Some(to)
}
