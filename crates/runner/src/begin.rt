// A node begins: a unit, then its value or its first part.
ghost use Rattle.core_term.specs.declared.nodes.Node.TheVariants as N;
ghost use Rattle.runner.specs.Memo.{Memo};
ghost use Rattle.runner.specs.Machine.{operation_found, Beginning, Leaving, Seeks, Spent, Anywhere, Everywhere, Some, Stands, Turning, Turns, begin_fuel, give_fuel};

use crate::numbers::OPERATIONS;
use crate::places::after;
use crate::rows::{Branches, Frame, Parts, Value, find};
use crate::state::{Counts, Turn, push, wait};
use core_term::nodes::{Node, opened};
use words::ground::Ground;

// An operation by its place, its unit spent: itself, or the ground that there is none.
fn operation(table: &mut [u32], s: Counts, p: u32) -> Result<Turn, Ground>
    requires { Anywhere (λ ws budget whole. Leaving ws budget whole table.old s (operation_found p)) }
    ensures { Everywhere (λ ws budget whole. Leaving ws budget whole table.old s (operation_found p)) (give_fuel s) table.new result }
{
    if p < OPERATIONS {
        return Ok(push(table, s, Value::Operation(p)));
    }
    Err(Ground::WrongKind)
}

// A variable, its unit spent: its value, or the ground that it is not bound.
fn variable(table: &mut [u32], s: Counts, n: u32, environment: u32) -> Result<Turn, Ground>
    requires { Anywhere (λ ws budget whole. Seeks ws budget whole table.old s n environment) }
    ensures { Everywhere (λ ws budget whole. Seeks ws budget whole table.old s n environment) (give_fuel s) table.new result }
{
    let Some(v) = find(table, environment, n) else {
        return Err(Ground::WrongKind);
    };
    Ok(push(table, s, v))
}

// An if, its unit spent: its test begins.
fn test(
    words: &[u32],
    ends: &[u32],
    table: &mut [u32],
    s: Counts,
    at: usize,
    environment: u32,
) -> Result<Turn, Ground>
    requires { Memo words.now ends.now × Some (λ budget whole. Spent words.now budget whole table.old s N.If at environment) }
    ensures { Turns words.now (λ budget whole. Spent words.now budget whole table.old s N.If at environment) (give_fuel s) table.new result }
{
    let f = Frame::Test(Branches {
        next: after(words, ends, at + 1),
        environment,
    });
    Ok(wait(table, s, f, at + 1, environment))
}

// An application of a head to operands, its unit spent: its head begins.
fn application(
    words: &[u32],
    ends: &[u32],
    table: &mut [u32],
    s: Counts,
    at: usize,
    operands: u32,
    environment: u32,
) -> Result<Turn, Ground>
    requires { Memo words.now ends.now × Some (λ budget whole. Spent words.now budget whole table.old s (N.Application operands) at environment) }
    ensures { Turns words.now (λ budget whole. Spent words.now budget whole table.old s (N.Application operands) at environment) (give_fuel s) table.new result }
{
    let f = Frame::Parts(Parts {
        next: after(words, ends, at + 2),
        left: operands,
        base: s.values as u32,
        environment,
    });
    Ok(wait(table, s, f, at + 2, environment))
}

// The node at a place, in an environment.
pub fn begin(
    words: &[u32],
    ends: &[u32],
    budget: usize,
    table: &mut [u32],
    s: Counts,
    at: usize,
    environment: u32,
) -> Result<Turn, Ground>
    requires { Memo words.now ends.now × Stands (λ whole. Beginning words.now budget whole table.old s at environment) }
    ensures { Turning words.now budget (λ whole. Beginning words.now budget whole table.old s at environment) (begin_fuel s budget) table.new result }
{
    if s.units >= budget {
        return Err(Ground::OutOfBudget);
    }
    let t = Counts {
        units: s.units + 1,
        ..s
    };
    let node = opened(&words[at..]).unwrap();
    match node {
        Node::Variable(n) => variable(table, t, n, environment),
        Node::Operation(p) => operation(table, t, p),
        Node::Integer(w) => Ok(push(table, t, Value::Number(w))),
        Node::Boolean(w) => Ok(push(table, t, Value::Boolean(w == 1))),
        Node::Decimal(_, _) => Err(Ground::WrongKind),
        Node::Name(_) => Ok(push(table, t, Value::Datum(at))),
        Node::List(_) => Ok(push(table, t, Value::Datum(at))),
        Node::If => test(words, ends, table, t, at, environment),
        Node::Lambda(_, _) => { Ok(push(table, t, Value::Closure { at, environment })) }
        Node::Application(n) => application(words, ends, table, t, at, n, environment),
    }
}
