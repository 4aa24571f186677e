// The four operations on integers, each in a word of two's complement.
ghost use Rattle.std.specs.Prelude.{◌<◌, ℤ, SomeIff, FitsSigned};
ghost use Rattle.std.specs.Int.{w32};
ghost use Rattle.evaluation.specs.Computation.{map_answer};
ghost use Rattle.evaluation.specs.Numbers.{within32};
ghost use Rattle.evaluation.specs.Evaluate.{number_v};
ghost use Rattle.evaluation.specs.Evaluate as S;
ghost use Rattle.runner.specs.Domain.{numbers, number_in};
ghost use Rattle.runner.specs.Made.{MadeIs};

use crate::rows::Value;
use words::ground::Ground;

pub const SUM: u32 = 0;

pub const DIFFERENCE: u32 = 1;

pub const LESS: u32 = 2;

pub const OPERATIONS: u32 = 4;

// The value of a sum or difference, where 32 bits hold it.
fn number(n: Option<i32>) -> Result<Value, Ground>
    ensures { (z : ℤ) → SomeIff n (FitsSigned w32 z) z → MadeIs (map_answer number_v (within32 z)) result }
{
    let n = n.ok_or(Ground::WrongKind)?;
    Ok(Value::Number(n.cast_unsigned()))
}

// The operation at a place below OPERATIONS, of two numbers. The place stays a number: it is a word of the term, and `operate` of the
// definition counts by it.
pub fn operate(place: u32, x: u32, y: u32) -> Result<Value, Ground>
    requires { place < 4 }
    ensures { MadeIs (S.operate numbers place (number_in x 0) (number_in y 0)) result }
{
    let a = x.cast_signed();
    let b = y.cast_signed();
    if place == SUM {
        return number(a.checked_add(b));
    }
    if place == DIFFERENCE {
        return number(a.checked_sub(b));
    }
    if place == LESS {
        return Ok(Value::Boolean(a < b));
    }
    Ok(Value::Boolean(a == b))
}
