// A term's words, node by node.
ghost use Rattle.std.specs.Prelude.{◌≡◌, ◌+◌, ◌≤◌, length};
ghost use Rattle.core_term.specs.Code.Window.{good_name, marked, window};
ghost use Rattle.core_term.specs.Code.Shape.{Shaped, InRow, Kept, Clear};

use crate::flags::mark;
use crate::head::{Walk, standing};
use crate::nodes::{Shape, shape_of};
use crate::read::read;

// How many words are taken, and how many variables are bound behind them.
#[derive(Clone, Copy)]
pub struct Checked {
    pub used: usize,
    pub bound: usize,
}

// The term at the beginning of words, a datum where quoted, if they begin with one; bound variables are bound before it.
#[cycle(parts_term)]
pub fn term(
    words: &[u32],
    names: &[u8],
    flags: &mut [u8],
    walk: Walk,
    bound: usize,
    quoted: bool,
) -> Option<Checked>
    requires { Clear walk.base bound flags.old }
    ensures { Shaped (window walk.operations (good_name walk.tabled names.now) walk.base) quoted flags.old bound words.now result × Kept result flags.old flags.new }
{
    let node = read(words)?;
    let within = standing(node, words, names, flags, walk, bound, quoted)?;
    let shape = shape_of(node);
    if shape.parts == 0 {
        return Some(Checked {
            used: shape.own,
            bound: within,
        });
    }
    parts(words, names, flags, walk, bound, within, shape)
}

// The parts of a node of that shape, in a row behind its own words.
#[cycle(parts_term)]
fn parts(
    words: &[u32],
    names: &[u8],
    flags: &mut [u8],
    walk: Walk,
    bound: usize,
    within: usize,
    shape: Shape,
) -> Option<Checked>
    requires { (Clear walk.base bound flags.old) × (within ≡ bound + shape.names) × (1 ≤ shape.own) × (shape.own ≤ length words.now) }
    ensures { InRow (window walk.operations (good_name walk.tabled names.now) walk.base) shape.quoted (marked walk.base bound shape.names 1 flags.old) within words.now shape.own shape.parts result × Kept result flags.old flags.new }
{
    mark(flags, walk.base, bound, within, 1);
    let quoted = shape.quoted;
    let mut used = shape.own;
    let mut now = within;
    for _ in 0..shape.parts {
        let part = term(&words[used..], names, flags, walk, now, quoted)?;
        used += part.used;
        now = part.bound;
    }
    mark(flags, walk.base, bound, within, 0);
    Some(Checked { used, bound: now })
}
