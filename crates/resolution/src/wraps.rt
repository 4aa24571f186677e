// Walking a wrap: what waits on a name, carried out on the name in hand, from the inside out.
// The marks in hand are lent a table of their own, so that the arena is only read.

ghost use Rattle.std.specs.Prelude.{◌+◌, ◌≤◌, length, MatchOption};
ghost use Rattle.arena.specs.Arena.{wrap_at, rebound, step_limit};
ghost use Rattle.resolution.specs.Marks.{Hand, MarksAfter, OwnMarks, NameAfter, OwnIs};

use crate::marks;
use arena::cells;

// The marks of a name after wrap w, where there is one; answers their count. The walk is spared where no wrap is left.
#[cycle(marks_after_marks_left)]
fn marks_left(work: &[u32], table: &mut [u32], start: usize, count: usize, w: u32) -> Option<usize>
    requires { Hand table.old start count }
    ensures { MatchOption result (length table.new ≤ start + step_limit) (MarksAfter (wrap_at work.now w) table.old table.new start count) }
{
    if w == 0 {
        return Some(count);
    }
    marks_after(work, table, start, count, w)
}

// The marks of a name after wrap w; answers their count.
#[cycle(marks_after_marks_left)]
fn marks_after(work: &[u32], table: &mut [u32], start: usize, count: usize, w: u32) -> Option<usize>
    requires { Hand table.old start count }
    ensures { MatchOption result (length table.new ≤ start + step_limit) (MarksAfter (wrap_at work.now w) table.old table.new start count) }
{
    let tag = cells::word(work, w, cells::TAG);
    if tag == 0 || cells::BINDER < tag {
        return Some(count);
    }
    let inner = cells::reference(work, w, cells::INNER);
    let n = marks_left(work, table, start, count, inner)?;
    if tag == cells::MARK {
        let m = cells::word(work, w, cells::STEP);
        return marks::mark(table, start, n, m);
    }
    if tag == cells::JOIN {
        let outer = cells::reference(work, w, cells::OUTER);
        return marks_left(work, table, start, n, outer);
    }
    Some(n)
}

// The marks of a binder's own name, from `start`; answers their count.
fn own_marks(work: &[u32], table: &mut [u32], start: usize, w: u32) -> Option<usize>
    requires { start ≤ length table.old }
    ensures { MatchOption result (length table.new ≤ start + step_limit) (OwnMarks work.now w table.old table.new start) }
{
    let own = cells::reference(work, w, cells::BOUND_OWN);
    let n = marks_after(work, table, start, 0, own)?;
    let pending = cells::reference(work, w, cells::BOUND_PENDING);
    marks_after(work, table, start, n, pending)
}

// The name in hand: how many marks it has, and its binding's key.
#[derive(Clone, Copy)]
pub struct InHand {
    pub count: usize,
    pub binding: u32,
}

// Whether the name in hand is the same as the own name of binder w, judged with the marks of its time. Number, binding, count
// and newest mark tell most names apart, and settle it where there is at most one mark; else the wraps of the binder's own
// name are walked.
fn is_own(
    work: &[u32],
    table: &mut [u32],
    start: usize,
    number: u32,
    held: InHand,
    w: u32,
) -> Option<bool>
    requires { Hand table.old start held.count }
    ensures { MatchOption result (length table.new ≤ start + step_limit + step_limit) (OwnIs work.now w table.old table.new start number held.count held.binding) }
{
    if cells::word(work, w, cells::BOUND_NUMBER) != number {
        return Some(false);
    }
    if cells::word(work, w, cells::BOUND_KEY) != held.binding {
        return Some(false);
    }
    if cells::word(work, w, cells::BOUND_COUNT) as usize != held.count {
        return Some(false);
    }
    if cells::word(work, w, cells::BOUND_NEWEST) != marks::newest_of(table, start, held.count) {
        return Some(false);
    }
    if held.count < 2 {
        return Some(true);
    }
    let behind = start + held.count;
    let own = own_marks(work, table, behind, w)?;
    if own != held.count {
        return Some(false);
    }
    Some(marks::equal_marks(table, behind, start, held.count))
}

// The name in hand after binder w: the binder's own name gets the new binding.
fn rebind(
    work: &[u32],
    table: &mut [u32],
    start: usize,
    number: u32,
    held: InHand,
    w: u32,
) -> Option<InHand>
    requires { Hand table.old start held.count }
    ensures { MatchOption result (length table.new ≤ start + step_limit + step_limit) (λ r. NameAfter (rebound work.now (wrap_at work.now) w) table.old table.new start number held.count held.binding r.count r.binding) }
{
    let same = is_own(work, table, start, number, held, w)?;
    if same {
        let binding = cells::word(work, w, cells::KEY);
        return Some(InHand { binding, ..held });
    }
    Some(held)
}

// The name in hand after wrap w, where there is one. Most wraps are a cell or two: the walk is spared where none is left.
#[cycle(walk_walked)]
pub fn walked(
    work: &[u32],
    table: &mut [u32],
    start: usize,
    number: u32,
    held: InHand,
    w: u32,
) -> Option<InHand>
    requires { Hand table.old start held.count }
    ensures { MatchOption result (length table.new ≤ start + step_limit + step_limit) (λ r. NameAfter (wrap_at work.now w) table.old table.new start number held.count held.binding r.count r.binding) }
{
    if w == 0 {
        return Some(held);
    }
    walk(work, table, start, number, held, w)
}

// The name in hand after wrap w: a mark toggles, a binder gives its binding to the same name, a join is one wrap after
// another. It recurses through joined pending wraps, the reference falling.
#[cycle(walk_walked)]
pub fn walk(
    work: &[u32],
    table: &mut [u32],
    start: usize,
    number: u32,
    held: InHand,
    w: u32,
) -> Option<InHand>
    requires { Hand table.old start held.count }
    ensures { MatchOption result (length table.new ≤ start + step_limit + step_limit) (λ r. NameAfter (wrap_at work.now w) table.old table.new start number held.count held.binding r.count r.binding) }
{
    let tag = cells::word(work, w, cells::TAG);
    if tag == 0 || cells::BINDER < tag {
        return Some(held);
    }
    let inner = cells::reference(work, w, cells::INNER);
    let s = walked(work, table, start, number, held, inner)?;
    if tag == cells::MARK {
        let m = cells::word(work, w, cells::STEP);
        let count = marks::mark(table, start, s.count, m)?;
        return Some(InHand { count, ..s });
    }
    if tag == cells::JOIN {
        let outer = cells::reference(work, w, cells::OUTER);
        return walked(work, table, start, number, s, outer);
    }
    rebind(work, table, start, number, s, w)
}
