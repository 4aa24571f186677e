// What opens and closes a node.
ghost use Rattle.std.specs.Prelude.{◌≡◌, ℕ, ◌+◌, ◌<◌, ◌≤◌, true, false, List, ◌++◌, length};
ghost use Rattle.words.specs.Text.{bytes};
ghost use Rattle.datum.specs.NameTable.{has_name};
ghost use Rattle.datum.specs.Constant.{boolean as constant};
ghost use Rattle.core_term.specs.Node as N;
ghost use Rattle.core_term.specs.Text.{constant_text};
ghost use Rattle.writer.specs.Laid.{Left};
ghost use Rattle.writer.specs.Called.{Said, Tells, said, said_of};
ghost use Rattle.writer.specs.Pieces.{formals_text, opening, closing};
ghost use Rattle.writer.specs.Opened.{Opened, Stands};
ghost use Rattle.writer.specs.OpenedLaws.{Naming};

use crate::bytes::{byte, copy};
use crate::names::{Bound, Pen, formals, name, variable};
use crate::numbers::{decimal, integer, numbered};
use core_term::nodes::Node;

// A name inside quote, or (quote name).
fn name_opening(
    n: usize,
    names: &[u8],
    out: &mut [u8],
    at: usize,
    inner: bool,
    ink: bool,
) -> Option<usize>
    requires { (at ≤ length out.old) × (has_name names.now n ≡ true) }
    ensures { (called : List ℕ) → Left ink (opening (said names.now called) inner (N.name_n n)) at out.old out.new result }
{
    if inner {
        return name(n, names, out, at, ink);
    }
    let a = copy(b"(quote ", out, at, ink)?;
    let b = name(n, names, out, a, ink)?;
    byte(b')', out, b, ink)
}

// (lambda (v0.t v1.u) and a space
fn lambda_opening(bound: Bound, out: &mut [u8], at: usize, pen: Pen) -> Option<usize>
    requires { (at ≤ length out.old) × (bound.first + bound.count < 18446744073709551616) × (Naming (said_of pen) (bound.first + bound.count)) × (Tells pen.called) }
    ensures { Left pen.entry.ink (bytes "(lambda (" ++ (formals_text (said_of pen.entry) false bound.first bound.count ++ bytes ") ")) at out.old out.new result }
{
    let a = copy(b"(lambda (", out, at, pen.ink)?;
    let b = formals(bound, out, a, pen)?;
    copy(b") ", out, b, pen.ink)
}

fn boolean(w: u32, out: &mut [u8], at: usize, ink: bool) -> Option<usize>
    requires { at ≤ length out.old }
    ensures { Left ink (constant_text (constant w)) at out.old out.new result }
{
    if w == 0 {
        return copy(b"#f", out, at, ink);
    }
    copy(b"#t", out, at, ink)
}

// A list inside quote, or (quote list).
fn list_opening(out: &mut [u8], at: usize, inner: bool, ink: bool) -> Option<usize>
    requires { at ≤ length out.old }
    ensures { (said : Said) (n : ℕ) → Left ink (opening said inner (N.list_n n)) at out.old out.new result }
{
    if inner {
        return byte(b'(', out, at, ink);
    }
    copy(b"(quote (", out, at, ink)
}

fn list_closing(out: &mut [u8], at: usize, inner: bool, ink: bool) -> Option<usize>
    requires { at ≤ length out.old }
    ensures { (n : ℕ) → Left ink (closing inner (N.list_n n)) at out.old out.new result }
{
    if inner {
        return byte(b')', out, at, ink);
    }
    copy(b"))", out, at, ink)
}

// What opens the node that was opened.
pub fn begin(node: Node, out: &mut [u8], at: usize, inner: bool, pen: Pen) -> Option<usize>
    requires { (at ≤ length out.old) × Opened (said_of pen) node × (Tells pen.called) }
    ensures { (x : N.Node) → Stands node x → Left pen.entry.ink (opening (said_of pen.entry) inner x) at out.old out.new result }
{
    match node {
        Node::Variable(n) => variable(n as usize, out, at, pen),
        Node::Operation(n) => numbered(b'o', n as usize, out, at, pen.ink),
        Node::Integer(w) => integer(w, out, at, pen.ink),
        Node::Boolean(w) => boolean(w, out, at, pen.ink),
        Node::Decimal(w, places) => decimal(w, places, out, at, pen.ink),
        Node::Name(n) => name_opening(n as usize, pen.names, out, at, inner, pen.ink),
        Node::List(_) => list_opening(out, at, inner, pen.ink),
        Node::If => copy(b"(if ", out, at, pen.ink),
        Node::Lambda(first, count) => {
            let bound = Bound {
                first: first as usize,
                count: count as usize,
            };
            lambda_opening(bound, out, at, pen)
        }
        Node::Application(_) => byte(b'(', out, at, pen.ink),
    }
}

// What closes it.
pub fn finish(node: Node, out: &mut [u8], at: usize, inner: bool, ink: bool) -> Option<usize>
    requires { at ≤ length out.old }
    ensures { (x : N.Node) → Stands node x → Left ink (closing inner x) at out.old out.new result }
{
    match node {
        Node::Variable(_)
        | Node::Operation(_)
        | Node::Integer(_)
        | Node::Boolean(_)
        | Node::Decimal(_, _)
        | Node::Name(_) => Some(at),
        Node::List(_) => list_closing(out, at, inner, ink),
        Node::If | Node::Lambda(_, _) | Node::Application(_) => byte(b')', out, at, ink),
    }
}
