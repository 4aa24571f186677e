// A term's text, node by node.
ghost use Rattle.std.specs.Prelude.{◌≡◌, ℕ, ◌≤◌, false, List, ◌++◌, length};
ghost use Rattle.core_term.specs.Node as N;
ghost use Rattle.core_term.specs.Term.{Plain};
ghost use Rattle.core_term.specs.Code.Opened.{ShapedAt};
ghost use Rattle.core_term.specs.Words.{encode};
ghost use Rattle.writer.specs.Called.{Tells, said_of};
ghost use Rattle.writer.specs.Pieces.{closing, text_in, row_text};
ghost use Rattle.writer.specs.Opened.{Stands};
ghost use Rattle.writer.specs.Walk.{Fits, Begins, Walked};

use crate::names::Pen;
use crate::numbers::gap;
use crate::pieces::{begin, finish};
use core_term::nodes::{Node, Shape, opened, shape_of};

// How many words a term takes, and the place behind its text.
#[derive(Clone, Copy)]
pub struct Step {
    pub used: usize,
    pub end: usize,
}

// What closes a node, behind so many words, if the output is long enough.
fn close(node: Node, used: usize, out: &mut [u8], at: usize, inner: bool, ink: bool) -> Option<Step>
    requires { at ≤ length out.old }
    ensures { (x : N.Node) → Stands node x → Walked ink (closing inner x) used at out.old out.new result }
{
    let end = finish(node, out, at, inner, ink)?;
    Some(Step { used, end })
}

// The text of the term at the beginning of words, from `at` on, if the output is long enough; inner is inside quote.
#[cycle(parts_term)]
pub fn term(words: &[u32], out: &mut [u8], at: usize, inner: bool, pen: Pen) -> Option<Step>
    requires { (at ≤ length out.old) × Begins (said_of pen) inner words.now × (Tells pen.called) }
    ensures { (t : Plain) (left : List ℕ) → Fits (said_of pen.entry) inner t → words.now ≡ encode t ++ left → Walked pen.entry.ink (text_in (said_of pen.entry) inner t) (length (encode t)) at out.old out.new result }
{
    let node = opened(words)?;
    let begun = begin(node, out, at, inner, pen)?;
    let shape = shape_of(node);
    if shape.parts == 0 {
        return close(node, shape.own, out, begun, inner, pen.ink);
    }
    let row = parts(words, shape, out, begun, pen)?;
    close(node, row.used, out, row.end, inner, pen.ink)
}

// The parts of a node of that shape, with spaces between.
#[cycle(parts_term)]
fn parts(words: &[u32], shape: Shape, out: &mut [u8], at: usize, pen: Pen) -> Option<Step>
    requires { (at ≤ length out.old) × Begins (said_of pen) false words.now × (ShapedAt words.now shape) × (Tells pen.called) }
    ensures { (t : Plain) (left : List ℕ) → Fits (said_of pen.entry) false t → words.now ≡ encode t ++ left → Walked pen.entry.ink (row_text (said_of pen.entry) t) (length (encode t)) at out.old out.new result }
{
    let quoted = shape.quoted;
    let mut used = shape.own;
    let mut to = at;
    for i in 0..shape.parts {
        let start = gap(i > 0, out, to, pen.ink)?;
        let part = term(&words[used..], out, start, quoted, pen)?;
        used += part.used;
        to = part.end;
    }
    Some(Step { used, end: to })
}
