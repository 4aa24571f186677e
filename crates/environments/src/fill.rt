// A pattern and a use, gone along together once: what its slots take goes into a row of words, and below each ellipsis into blocks.

ghost use Rattle.std.specs.Prelude.{◌≡◌, ◌+◌, ◌^◌, ◌<◌};
ghost use Rattle.rule_cells.specs.Cells.{pattern_at};
ghost use Rattle.environments.specs.Blocks.{slots};
ghost use Rattle.environments.specs.Fill.{Fillable, Filled, Openable, Opened, RowsFillable, RowsFilled};

use crate::shares;
use arena::lists;
use rule_cells::cells;

// Where the next slot's word goes, and the next block.
#[derive(Clone, Copy)]
pub struct Free {
    pub slot: u32,
    pub top: u32,
}

// A block's count, and the top above its rows.
#[derive(Clone, Copy)]
pub struct Block {
    pub count: u32,
    pub top: u32,
}

// The list behind what an ellipsis has taken, and the top above its blocks.
#[derive(Clone, Copy)]
pub struct Behind {
    pub node: u32,
    pub top: u32,
}

// The slots of a pattern, after n others: a visit for each of its cells outside ellipses.
pub fn slots(work: &[u32], p: u32, n: u32) -> u32
    requires { n + slots (pattern_at work.now p) < 2 ^ 32 }
    ensures { result ≡ n + slots (pattern_at work.now p) }
{
    let tag = arena::cells::word(work, p, cells::TAG);
    if tag == cells::VARIABLE {
        return n + 1;
    }
    let rest = arena::cells::reference(work, p, cells::REST);
    if tag == cells::ELLIPSIS {
        return slots(work, rest, n + 1);
    }
    if tag != cells::PAIR {
        return n;
    }
    let head = arena::cells::reference(work, p, cells::HEAD);
    let first = slots(work, head, n);
    slots(work, rest, first)
}

// The first two words of the block of an ellipsis at a list: the list is gone along to count it. The slots of the element are counted
// only where there is an element, whose own visits pay for it.
pub fn open_block(work: &mut [u32], p: u32, u: u32, top: u32) -> Block
    requires { Openable work.old p u top }
    ensures { Opened work.old work.new p u top result.count result.top }
{
    let c = shares::share(work, p, u);
    if c == 0 {
        work[top as usize] = 0;
        return Block {
            count: 0,
            top: top + 2,
        };
    }
    let element = arena::cells::reference(work, p, cells::HEAD);
    let width = slots(work, element, 0);
    work[top as usize] = c;
    work[top as usize + 1] = width;
    Block {
        count: c,
        top: top + 2 + c * width,
    }
}

// What the slots of a pattern take from a use: a visit for each of the pattern's cells outside ellipses, and what its blocks take.
#[cycle(fill_fill_rows)]
pub fn fill(work: &mut [u32], p: u32, u: u32, x: Free) -> Free
    requires { Fillable work.old p u x }
    ensures { Filled work.old work.new p u x result }
{
    let tag = arena::cells::word(work, p, cells::TAG);
    if tag == cells::VARIABLE {
        work[x.slot as usize] = u;
        return Free {
            slot: x.slot + 1,
            top: x.top,
        };
    }
    let rest = arena::cells::reference(work, p, cells::REST);
    let head = arena::cells::reference(work, p, cells::HEAD);
    if tag == cells::ELLIPSIS {
        let b = open_block(work, p, u, x.top);
        let y = fill_rows(
            work,
            head,
            u,
            b.count,
            Free {
                slot: x.top + 2,
                top: b.top,
            },
        );
        work[x.slot as usize] = x.top;
        return fill(
            work,
            rest,
            y.node,
            Free {
                slot: x.slot + 1,
                top: y.top,
            },
        );
    }
    if tag != cells::PAIR {
        return x;
    }
    let first = lists::first(work, u);
    let tail = lists::rest(work, u);
    let y = fill(work, head, first, x);
    fill(work, rest, tail, y)
}

// A row for each of a list's first c elements.
#[cycle(fill_fill_rows)]
fn fill_rows(work: &mut [u32], p: u32, u: u32, c: u32, x: Free) -> Behind
    requires { RowsFillable work.old p u c x }
    ensures { RowsFilled work.old work.new p u c x result.node result.top }
{
    let mut node = u;
    let mut slot = x.slot;
    let mut top = x.top;
    let mut i = 0;
    while i < c {
        let first = lists::first(work, node);
        let tail = lists::rest(work, node);
        let y = fill(work, p, first, Free { slot, top });
        node = tail;
        slot = y.slot;
        top = y.top;
        i += 1;
    }
    Behind { node, top }
}
