// One macro step: the first rule that fits, then the result while there is fuel for it and driving lists are of one length.

ghost use Rattle.steps.specs.Apply.{Transcribing, Transcribed, Stepping, Stepped};

use crate::{build, fits};
use arena::cells;
use environments::{agree, bind, environment};
use words::ground::Ground;

// A result: its root, and how many items it has.
#[derive(Clone, Copy)]
pub struct Applied {
    pub root: u32,
    pub cost: u32,
}

// A template in an environment; `limit` is the fuel left. Where there is no result, all lengths are compared before the fuel is
// called short.
fn transcribe(
    work: &mut [u32],
    top: u32,
    env: &[u32; environment::WORDS],
    w: u32,
    t: u32,
    limit: u32,
) -> Result<Applied, Ground>
    requires { Transcribing work.old top env.now w t limit }
    ensures { Transcribed work.old work.new top env.now w t limit result }
{
    let Some(built) = build::build(work, top, limit, env, w, t) else {
        if agree::lengths_agree(work, env, t) {
            return Err(Ground::OutOfFuel);
        }
        return Err(Ground::UnequalLists);
    };
    Ok(Applied {
        root: built.at,
        cost: limit - built.left,
    })
}

// The rules at a use, which waits under w with the step's mark; `limit` is the fuel left.
pub fn apply(
    work: &mut [u32],
    top: u32,
    rules: u32,
    u: u32,
    w: u32,
    limit: u32,
) -> Result<Applied, Ground>
    requires { Stepping work.old top rules u w limit }
    ensures { Stepped work.old work.new top rules u w limit result }
{
    let Some(rule) = fits::first_fit(work, rules, u, w) else {
        return Err(Ground::NoRule);
    };
    let p = cells::reference(work, rule, rule_cells::cells::PATTERN);
    let t = cells::reference(work, rule, rule_cells::cells::TEMPLATE);
    let mut env = [0u32; environment::WORDS];
    bind::bind(work, &mut env, p, u);
    transcribe(work, top, &env, w, t, limit)
}
