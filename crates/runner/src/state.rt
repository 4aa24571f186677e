// What a turn of the machine is. values + frames + cells <= units spent, always; so every row in use is within the budget.
ghost use Rattle.std.specs.Prelude.{◌≡◌, ◌+◌, ◌*◌, ◌≤◌, length, Ok};
ghost use Rattle.runner.specs.Stores.{frame_set};
ghost use Rattle.runner.specs.declared.state.Turn.TheVariants as T;
ghost use Rattle.runner.specs.Machine.{Giving, Anywhere, Everywhere, give_fuel};
ghost use Rattle.runner.specs.BeginLaws.{framed};

use crate::rows::{Frame, Value, put_frame, put_value};

// The units spent, and how many rows are in use of each kind.
#[derive(Clone, Copy)]
pub struct Counts {
    pub units: usize,
    pub values: usize,
    pub frames: usize,
    pub cells: usize,
}

// The node at a place begins in an environment; or a value has come, on top of the values.
#[derive(Clone, Copy)]
pub enum Turn {
    Begins(Counts, usize, u32),
    Comes(Counts),
}

// A value onto the stack.
pub fn push(table: &mut [u32], s: Counts, v: Value) -> Turn
    requires { Anywhere (λ ws budget whole. Giving ws budget whole table.old s v) }
    ensures { Everywhere (λ ws budget whole. Giving ws budget whole table.old s v) (give_fuel s) table.new (Ok result) }
{
    put_value(table, s.values, v);
    Turn::Comes(Counts {
        values: s.values + 1,
        ..s
    })
}

// A frame, and then the node at a place.
pub fn wait(table: &mut [u32], s: Counts, f: Frame, at: usize, environment: u32) -> Turn
    requires { 16 * (s.frames + 1) ≤ length table.old }
    ensures { (result ≡ T.Begins (framed s) at environment) × (table.new ≡ frame_set table.old s.frames f) }
{
    put_frame(table, s.frames, f);
    Turn::Begins(
        Counts {
            frames: s.frames + 1,
            ..s
        },
        at,
        environment,
    )
}
