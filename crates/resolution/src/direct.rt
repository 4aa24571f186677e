// Bindings found from the outside in, without marks in hand: where a name of the use or of a template has no more than one mark inside
// the binder that it meets first, and no wraps are joined there. Most lookups are such; the others walk what waits (wraps.rt).
// A mark of 0 is none and a key of 0 is no binding, as in the words of a binder's cell; a reference of 0 is no wrap.

ghost use Rattle.std.specs.Prelude.{◌≡◌, true, IfSome};
ghost use Rattle.arena.specs.Offsets.{INNER};
ghost use Rattle.arena.specs.Arena.{reference_at};
ghost use Rattle.resolution.specs.Direct.{SkipsTo, Passes, IsMark, OneMark, LoneMark, OnlyMark, count_of, Gives, Finds};

use crate::marks;
use arena::cells;

// Whether a cell is a binder of another number.
fn is_other_binder(work: &[u32], number: u32, at: u32) -> bool
    ensures { result ≡ true → SkipsTo work.now number at }
{
    cells::word(work, at, cells::TAG) == cells::BINDER
        && cells::word(work, at, cells::BOUND_NUMBER) != number
}

// Whether a cell leaves the binding of a name of this number as the wrap inside it does: a mark, or a binder of another number.
fn is_passed(work: &[u32], number: u32, at: u32) -> bool
    ensures { result ≡ true → Passes work.now number at (reference_at work.now at INNER) }
{
    cells::word(work, at, cells::TAG) == cells::MARK || is_other_binder(work, number, at)
}

// The outermost cell of wrap w that may change the binding of a name of this number, 0 where there is none.
fn passed(work: &[u32], number: u32, w: u32) -> u32
    ensures { Passes work.now number w result }
{
    let mut at = w;
    while at != 0 {
        if !is_passed(work, number, at) {
            return at;
        }
        at = cells::reference(work, at, cells::INNER);
    }
    0
}

// The step of a mark's cell.
fn mark_at(work: &[u32], at: u32) -> Option<u32>
    ensures { IfSome result (IsMark work.now at) }
{
    if cells::word(work, at, cells::TAG) != cells::MARK {
        return None;
    }
    let step = cells::word(work, at, cells::STEP);
    if step == 0 || marks::STEP_LIMIT <= step {
        return None;
    }
    Some(step)
}

// The one mark of a cell and of those around it, where these have `mark`, or 0 for none. There is no answer where there are two, or the
// cell is neither a mark nor a binder of another number.
fn one_mark(work: &[u32], number: u32, at: u32, mark: u32) -> Option<u32>
    ensures { IfSome result (OneMark work.now number at mark) }
{
    if is_other_binder(work, number, at) {
        return Some(mark);
    }
    if mark != 0 {
        return None;
    }
    mark_at(work, at)
}

// The one mark of wrap w, 0 where it has none. There is no answer where there are more, or cells that are neither marks nor binders of
// other numbers.
fn lone_mark(work: &[u32], number: u32, w: u32) -> Option<u32>
    ensures { IfSome result (LoneMark work.now number w) }
{
    let mut at = w;
    let mut mark = 0;
    while at != 0 {
        mark = one_mark(work, number, at, mark)?;
        at = cells::reference(work, at, cells::INNER);
    }
    Some(mark)
}

// The one mark of a name of this number under its own wrap and a pending one, 0 where it has none. There is no answer where it may have
// more, or a binding.
pub fn only_mark(work: &[u32], number: u32, own: u32, w: u32) -> Option<u32>
    ensures { IfSome result (OnlyMark work.now number own w) }
{
    if lone_mark(work, number, own)? != 0 {
        return None;
    }
    lone_mark(work, number, w)
}

// How many marks there are where this is the only one.
#[tactic(auto, unfolding(crate::specs::Direct::count_of))]
pub fn count_of(mark: u32) -> u32
    ensures { result ≡ count_of mark }
{
    u32::from(mark != 0)
}

// The key that binder `at` gives a name of this number that has one mark or none, and no binding.
fn given_key(work: &[u32], number: u32, at: u32, mark: u32) -> u32
    ensures { Gives work.now number at mark result }
{
    if cells::word(work, at, cells::BOUND_NUMBER) != number {
        return 0;
    }
    if cells::word(work, at, cells::BOUND_KEY) != 0 {
        return 0;
    }
    if cells::word(work, at, cells::BOUND_COUNT) != count_of(mark) {
        return 0;
    }
    if cells::word(work, at, cells::BOUND_NEWEST) != mark {
        return 0;
    }
    cells::word(work, at, cells::KEY)
}

// The key of the binding that a wrap gives a name of this number whose own wrap is `own`, where the wrap's outermost cell is a binder.
fn binding_by(work: &[u32], number: u32, own: u32, at: u32) -> Option<u32>
    ensures { IfSome result (Finds work.now number own at) }
{
    if cells::word(work, at, cells::TAG) != cells::BINDER {
        return None;
    }
    let inner = cells::reference(work, at, cells::INNER);
    let mark = only_mark(&work[0..], number, own, inner)?;
    Some(given_key(work, number, at, mark))
}

// The key of the binding of a name of this number under its own wrap and a pending one, where it is found so.
pub fn binding(work: &[u32], number: u32, own: u32, w: u32) -> Option<u32>
    ensures { IfSome result (Finds work.now number own w) }
{
    let outer = passed(work, number, w);
    if outer != 0 {
        return binding_by(work, number, own, outer);
    }
    let inner = passed(work, number, own);
    if inner != 0 {
        return binding_by(work, number, 0, inner);
    }
    Some(0)
}
