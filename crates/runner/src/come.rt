// A value comes to the top frame.
ghost use Rattle.std.specs.Prelude.{◌≡◌, ℕ, ◌+◌, ◌-◌, ◌*◌, ◌≤◌, ◌<◌, List};
ghost use Rattle.evaluation.specs.Evaluate as S;
ghost use Rattle.runner.specs.Domain.{Number};
ghost use Rattle.runner.specs.Memo.{Memo};
ghost use Rattle.runner.specs.declared.rows.Value.TheVariants as R;
ghost use Rattle.runner.specs.Rows.{ValueIs, value_at};
ghost use Rattle.runner.specs.Machine.{Coming, Testing, Parting, Complete, Anywhere, Everywhere, Some, Turns, come_fuel};

use crate::numbers::operate;
use crate::places::after;
use crate::rows::{Branches, Frame, Parts, Value, bind, frame_at, put_frame, value_at};
use crate::state::{Counts, Turn, push};
use words::ground::Ground;

// Only #f is false.
fn holds(v: Value) -> bool
    ensures { (ws t : List ℕ) (top : ℕ) (x : S.Value Number) → ValueIs ws t top v x → result ≡ S.holds x }
{
    match v {
        Value::Boolean(b) => b,
        _ => true,
    }
}

// The test of an if has its value.
fn branch(
    words: &[u32],
    ends: &[u32],
    table: &[u32],
    s: Counts,
    f: Branches,
) -> Result<Turn, Ground>
    requires { Memo words.now ends.now × Some (λ budget whole. Testing words.now budget whole table.now s f) }
    ensures { Turns words.now (λ budget whole. Testing words.now budget whole table.now s f) (come_fuel s) table.now result }
{
    let top = s.values - 1;
    let popped = Counts {
        values: top,
        frames: s.frames - 1,
        ..s
    };
    if holds(value_at(table, top)) {
        return Ok(Turn::Begins(popped, f.next, f.environment));
    }
    Ok(Turn::Begins(popped, after(words, ends, f.next), f.environment))
}

// The next part of an application.
fn part(words: &[u32], ends: &[u32], table: &mut [u32], s: Counts, f: Parts) -> Result<Turn, Ground>
    requires { Memo words.now ends.now × (1 ≤ f.left) × Some (λ budget whole. Parting words.now budget whole table.old s f) }
    ensures { Turns words.now (λ budget whole. Parting words.now budget whole table.old s f) (come_fuel s) table.new result }
{
    let waiting = Parts {
        next: after(words, ends, f.next),
        left: f.left - 1,
        ..f
    };
    put_frame(table, s.frames - 1, Frame::Parts(waiting));
    Ok(Turn::Begins(s, f.next, f.environment))
}

// A closure applied to n operands. Behind its lambda's code stand the first variable and their count.
fn call(
    words: &[u32],
    table: &mut [u32],
    s: Counts,
    at: usize,
    environment: u32,
    base: usize,
    n: usize,
) -> Result<Turn, Ground>
    requires { (value_at table.old base ≡ R.Closure at environment) × Some (λ budget whole. Complete words.now budget whole table.old s base n) }
    ensures { Turns words.now (λ budget whole. Complete words.now budget whole table.old s base n) (come_fuel s) table.new result }
{
    let first = words[at + 1];
    let count = words[at + 2] as usize;
    if n != count {
        return Err(Ground::WrongCount);
    }
    let bound = bind(table, s.cells, environment, first, base + 1, n);
    Ok(Turn::Begins(
        Counts {
            values: base,
            frames: s.frames - 1,
            cells: bound.cells,
            ..s
        },
        at + 3 + count,
        bound.environment,
    ))
}

// An operation applied to n operands.
fn operation(
    table: &mut [u32],
    s: Counts,
    place: u32,
    base: usize,
    n: usize,
) -> Result<Turn, Ground>
    requires { (value_at table.old base ≡ R.Operation place) × Anywhere (λ ws budget whole. Complete ws budget whole table.old s base n) }
    ensures { Everywhere (λ ws budget whole. Complete ws budget whole table.old s base n) (come_fuel s) table.new result }
{
    if n != 2 {
        return Err(Ground::WrongCount);
    }
    let Value::Number(x) = value_at(table, base + 1) else {
        return Err(Ground::WrongKind);
    };
    let Value::Number(y) = value_at(table, base + 2) else {
        return Err(Ground::WrongKind);
    };
    let v = operate(place, x, y)?;
    let popped = Counts {
        values: base,
        frames: s.frames - 1,
        ..s
    };
    Ok(push(table, popped, v))
}

// All parts have their values: the tests of the head, of the number of operands, of their kinds.
fn apply(words: &[u32], table: &mut [u32], s: Counts, base: usize) -> Result<Turn, Ground>
    requires { Some (λ budget whole. Complete words.now budget whole table.old s base (s.values - base - 1)) }
    ensures { Turns words.now (λ budget whole. Complete words.now budget whole table.old s base (s.values - base - 1)) (come_fuel s) table.new result }
{
    let n = s.values - base - 1;
    match value_at(table, base) {
        Value::Closure { at, environment } => call(words, table, s, at, environment, base, n),
        Value::Operation(place) => operation(table, s, place, base, n),
        _ => Err(Ground::WrongKind),
    }
}

// A value has come to the top frame.
pub fn come(words: &[u32], ends: &[u32], table: &mut [u32], s: Counts) -> Result<Turn, Ground>
    requires { Memo words.now ends.now × (1 ≤ s.frames) × Some (λ budget whole. Coming words.now budget whole table.old s) }
    ensures { Turns words.now (λ budget whole. Coming words.now budget whole table.old s) (come_fuel s) table.new result }
{
    match frame_at(table, s.frames - 1) {
        Frame::Test(f) => branch(words, ends, table, s, f),
        Frame::Parts(f) => {
            if f.left > 0 {
                return part(words, ends, table, s, f);
            }
            apply(words, table, s, f.base as usize)
        }
    }
}
