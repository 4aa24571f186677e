// The machine: one turn begins a node, or takes a value to the top frame. What falls at every turn is 2 x (units left) + frames
// + (1 where a value has come).
ghost use Rattle.runner.specs.Memo.{Memo};
ghost use Rattle.runner.specs.Machine.{Beginning, Stands, Ends};

use crate::begin::begin;
use crate::come::come;
use crate::rows::{Value, value_at};
use crate::state::{Counts, Turn};
use words::ground::Ground;

// What a run ends with: a value and the units.
#[derive(Clone, Copy)]
pub struct End {
    pub value: Value,
    pub units: usize,
}

// From the node at a place on, until one value is left. Words, ends and table stay parameters of each turn: what turns promise
// (`Everywhere`) is said of the table alone, the others are only read.
pub fn go(
    words: &[u32],
    ends: &[u32],
    budget: usize,
    table: &mut [u32],
    from: Counts,
    at: usize,
    environment: u32,
) -> Result<End, Ground>
    requires { Memo words.now ends.now × Stands (λ whole. Beginning words.now budget whole table.old from at environment) }
    ensures { Ends words.now budget (λ whole. Beginning words.now budget whole table.old from at environment) table.new result }
{
    let mut turn = Turn::Begins(from, at, environment);
    loop {
        turn = match turn {
            Turn::Begins(s, p, e) => begin(words, ends, budget, table, s, p, e)?,
            Turn::Comes(s) => {
                if s.frames == 0 {
                    return Ok(End {
                        value: value_at(table, 0),
                        units: s.units,
                    });
                }
                come(words, ends, table, s)?
            }
        };
    }
}
