// The environment of a pattern and a use that fits it. The tail of a list is bound before its head, which the definition finds first.

ghost use Rattle.environments.specs.Bind.{bound, inner_second, BindsOne, BindsList, Binds};
ghost use Rattle.std.specs.Prelude.{◌≡◌};

use crate::environment::Entry;
use crate::{environment, shares};
use arena::lists;
use rule_cells::cells;

// Variable k takes a node, and lies under these ellipses.
fn bind_variable(env: &mut [u32; environment::WORDS], k: u32, node: u32, first: u32, second: u32)
    ensures { BindsOne k (bound node first second) env.old env.new }
{
    if words::VARIABLES <= k {
        return;
    }
    let i = k as usize;
    environment::put(
        env,
        i,
        Entry {
            whole: node,
            one: node,
            two: node,
            first,
            second,
            along: 0,
            across: 0,
        },
    );
}

// The second ellipsis over the variables of a cell's head: the cell's own, where it is one and none is known.
fn inner_second(tag: u32, p: u32, second: u32) -> u32
    ensures { result ≡ inner_second tag p second }
{
    if tag != cells::ELLIPSIS {
        return second;
    }
    if second != 0 {
        return second;
    }
    p
}

// The variables of an element: each takes the list.
fn bind_list(
    work: &[u32],
    env: &mut [u32; environment::WORDS],
    p: u32,
    list: u32,
    first: u32,
    second: u32,
)
    ensures { BindsList work.now p list first second env.old env.new }
{
    let tag = arena::cells::word(work, p, cells::TAG);
    match tag {
        cells::VARIABLE => {
            let k = arena::cells::word(work, p, cells::PATTERN_NUMBER);
            bind_variable(env, k, list, first, second);
        }
        cells::PAIR | cells::ELLIPSIS => {
            let rest = arena::cells::reference(work, p, cells::REST);
            bind_list(work, env, rest, list, first, second);
            let head = arena::cells::reference(work, p, cells::HEAD);
            bind_list(work, env, head, list, first, inner_second(tag, p, second));
        }
        _ => {}
    }
}

// The variables of a pattern, each with what it takes from the use.
pub fn bind(work: &[u32], env: &mut [u32; environment::WORDS], p: u32, u: u32)
    ensures { Binds work.now p u env.old env.new }
{
    let tag = arena::cells::word(work, p, cells::TAG);
    if tag == cells::VARIABLE {
        let k = arena::cells::word(work, p, cells::PATTERN_NUMBER);
        bind_variable(env, k, u, 0, 0);
        return;
    }
    let rest = arena::cells::reference(work, p, cells::REST);
    let head = arena::cells::reference(work, p, cells::HEAD);
    if tag == cells::ELLIPSIS {
        if rest != 0 {
            let after = shares::after(work, p, u);
            bind(work, env, rest, after);
        }
        bind_list(work, env, head, u, p, 0);
        return;
    }
    if tag != cells::PAIR {
        return;
    }
    let tail = lists::rest(work, u);
    bind(work, env, rest, tail);
    let first = lists::first(work, u);
    bind(work, env, head, first);
}
