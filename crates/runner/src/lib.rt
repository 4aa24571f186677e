// The runner (request L11): a core term's value, or the ground. Its meaning stands in evaluation/specs/Run.antt.
#![tactic(auto)]

mod begin; // a node begins
mod come; // a value comes
mod machine; // from turn to turn
mod numbers; // the four operations
mod places; // where parts end
mod rows; // rows of the lent table
mod state; // what a turn is

ghost use Rattle.std.specs.Prelude.{length};
ghost use Rattle.runner.specs.Memo.{Memo};
ghost use Rattle.runner.specs.Service.{Ran};
ghost use Rattle.runner.specs.ServiceLaws.{Fit, Tested, ToldAs};

use core_term::is_term_unnamed;
use machine::go;
use places::mark;
use state::Counts;
use words::ground::Ground;
use words::{BUDGET, OPERATIONS, RUN_RATE};

// A term of no more words takes the short table of ends; the long one has a word for each word of any expansion's term.
const SHORT: usize = 1024;

const LONG: usize = 36864;

// What a term's value is: a number by its word, a quoted datum by its place.
#[derive(Clone, Copy, Debug, PartialEq, Eq)]
pub enum Value {
    Integer(u32),
    Boolean(bool),
    Datum(usize),
    Closure,
    Operation,
}

// A value with the units that it took.
#[derive(Clone, Copy, Debug, PartialEq, Eq)]
pub struct Outcome {
    pub value: Value,
    pub units: usize,
}

// Grounds 19, 8, 9, in this order.
fn fit(words: &[u32], budget: u32, table: &[u32]) -> Result<(), Ground>
    ensures { Tested words.now budget (length table.now) result }
{
    if !is_term_unnamed(words, OPERATIONS) {
        return Err(Ground::NoTerm);
    }
    if budget > BUDGET {
        return Err(Ground::TooMuchFuel);
    }
    if table.len() < RUN_RATE * (budget as usize + 1) {
        return Err(Ground::SmallTables);
    }
    Ok(())
}

// A value as the service tells it.
fn whole(v: rows::Value) -> Value
    ensures { ToldAs v result }
{
    match v {
        rows::Value::Number(w) => Value::Integer(w),
        rows::Value::Boolean(b) => Value::Boolean(b),
        rows::Value::Datum(at) => Value::Datum(at),
        rows::Value::Closure { .. } => Value::Closure,
        rows::Value::Operation(_) => Value::Operation,
    }
}

// The evaluation of a term whose tests are passed, with a table for where its parts end.
fn evaluated(
    words: &[u32],
    ends: &mut [u32],
    budget: u32,
    table: &mut [u32],
) -> Result<Outcome, Ground>
    requires { Memo words.now ends.old × Fit words.now budget (length table.old) }
    ensures { Ran words.now budget table.old table.new result }
{
    mark(words, ends, 0);
    let start = Counts {
        units: 0,
        values: 0,
        frames: 0,
        cells: 0,
    };
    let end = go(words, ends, budget as usize, table, start, 0, 0);
    table.fill(0);
    let end = end?;
    Ok(Outcome {
        value: whole(end.value),
        units: end.units,
    })
}

// The value of the term that words spell, on a budget, with a table lent.
pub fn run(words: &[u32], budget: u32, table: &mut [u32]) -> Result<Outcome, Ground>
    ensures { Ran words.now budget table.old table.new result }
{
    fit(words, budget, table)?;
    if words.len() <= SHORT {
        let mut ends = [0; SHORT];
        return evaluated(words, &mut ends, budget, table);
    }
    let mut ends = [0; LONG];
    evaluated(words, &mut ends, budget, table)
}
