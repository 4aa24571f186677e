// A step's result, built into fresh nodes above the top, the root last, while there is fuel for each item of it (ground 18) and
// the lists that drive copies are of one length (ground 17). An inserted name gets the wrap of its cell, joined with its own.
//
// There is no result where there is not fuel enough or driving lists differ in length: which of the two, who asks finds out (ground 17
// before 18).

ghost use Rattle.std.specs.Prelude.{◌≡◌};
ghost use Rattle.arena.specs.Arena.{word_at};
ghost use Rattle.steps.specs.Build.{Buildable, Made, Backwards, Copied};

use crate::copy;
use crate::copy::Built;
use arena::cells;
use environments::{environment, lengths};

// What a template's cell without parts gives.
fn build_leaf(
    work: &mut [u32],
    top: u32,
    fuel: u32,
    env: &[u32; environment::WORDS],
    w: u32,
    t: u32,
) -> Option<Built>
    requires { (Buildable work.old top fuel env.now w t) × (word_at work.old t 1 ≡ 6 → ⊥) × (word_at work.old t 1 ≡ 7 → ⊥) }
    ensures { Made work.old work.new top fuel env.now w t result }
{
    let tag = cells::word(work, t, rule_cells::cells::TAG);
    if tag == rule_cells::cells::VARIABLE {
        let k = cells::word(work, t, rule_cells::cells::NUMBER);
        let d = cells::word(work, t, rule_cells::cells::DEPTH);
        let node = environment::taken(env, k, d);
        return copy::copy_tree(work, top, fuel, node, w);
    }
    let left = fuel.checked_sub(1)?;
    if tag == rule_cells::cells::NAME {
        let node = cells::reference(work, t, rule_cells::cells::NODE);
        let wrap = cells::reference(work, t, rule_cells::cells::WRAP);
        return Some(Built {
            at: copy::copy_name(work, top, node, wrap),
            left,
        });
    }
    if tag == rule_cells::cells::CONSTANT {
        let kind = cells::word(work, t, rule_cells::cells::KIND);
        let a = cells::word(work, t, rule_cells::cells::FIRST);
        let b = cells::word(work, t, rule_cells::cells::SECOND);
        return Some(Built {
            at: cells::put_constant(work, top, kind, a, b),
            left,
        });
    }
    Some(Built {
        at: cells::put_empty(work, top),
        left,
    })
}

// What a part of a template gives. A cell without parts is built in place, without a call more.
#[cycle(build_build_backwards_build_copies_build_elements_build_ellipsis_build_part)]
fn build_part(
    work: &mut [u32],
    top: u32,
    fuel: u32,
    env: &[u32; environment::WORDS],
    w: u32,
    t: u32,
) -> Option<Built>
    requires { Buildable work.old top fuel env.now w t }
    ensures { Made work.old work.new top fuel env.now w t result }
{
    let tag = cells::word(work, t, rule_cells::cells::TAG);
    if tag < rule_cells::cells::PAIR {
        return build_leaf(work, top, fuel, env, w, t);
    }
    if rule_cells::cells::ELLIPSIS < tag {
        return build_leaf(work, top, fuel, env, w, t);
    }
    build(work, top, fuel, env, w, t)
}

// What a template gives, the rest of a list before its head.
#[cycle(build_build_backwards_build_copies_build_elements_build_ellipsis_build_part)]
pub fn build(
    work: &mut [u32],
    top: u32,
    fuel: u32,
    env: &[u32; environment::WORDS],
    w: u32,
    t: u32,
) -> Option<Built>
    requires { Buildable work.old top fuel env.now w t }
    ensures { Made work.old work.new top fuel env.now w t result }
{
    let tag = cells::word(work, t, rule_cells::cells::TAG);
    if tag == rule_cells::cells::ELLIPSIS {
        return build_ellipsis(work, top, fuel, env, w, t);
    }
    if tag != rule_cells::cells::PAIR {
        return build_leaf(work, top, fuel, env, w, t);
    }
    let spare = fuel.checked_sub(1)?;
    let first = cells::reference(work, t, rule_cells::cells::HEAD);
    let rest = cells::reference(work, t, rule_cells::cells::REST);
    let tail = build_part(work, top, spare, env, w, rest)?;
    let head = build_part(work, tail.at, tail.left, env, w, first)?;
    Some(Built {
        at: cells::put_pair(work, head.at, head.at, tail.at),
        left: head.left,
    })
}

// What an element followed by `...` gives, before the rest of its list.
#[cycle(build_build_backwards_build_copies_build_elements_build_ellipsis_build_part)]
fn build_ellipsis(
    work: &mut [u32],
    top: u32,
    fuel: u32,
    env: &[u32; environment::WORDS],
    w: u32,
    t: u32,
) -> Option<Built>
    requires { (Buildable work.old top fuel env.now w t) × (word_at work.old t 1 ≡ 7) }
    ensures { Made work.old work.new top fuel env.now w t result }
{
    let first = cells::reference(work, t, rule_cells::cells::HEAD);
    let rest = cells::reference(work, t, rule_cells::cells::REST);
    let Ok(c) = lengths::copies(work, env, first) else {
        return None;
    };
    let tail = build_part(work, top, fuel, env, w, rest)?;
    build_copies(work, tail.at, tail.left, env, w, first, c)
}

// The copies of an element, the last first.
#[cycle(build_build_backwards_build_copies_build_elements_build_ellipsis_build_part)]
fn build_backwards(
    work: &mut [u32],
    top: u32,
    fuel: u32,
    env: &[u32; environment::WORDS],
    w: u32,
    e: u32,
    c: u32,
) -> Option<Built>
    requires { Buildable work.old top fuel env.now w e }
    ensures { Backwards work.old work.new top fuel env.now w e c result }
{
    let mut table = [0u32; environment::WORDS];
    let moving = environment::begin(env, &mut table);
    let mut list = top;
    let mut left = fuel;
    for _ in 0..c {
        let spare = left.checked_sub(1)?;
        environment::enter(work, &mut table, moving);
        let head = build_part(work, list, spare, &table, w, e)?;
        list = cells::put_pair(work, head.at, head.at, list);
        left = head.left;
    }
    Some(Built { at: list, left })
}

// The copies of an element, the last first. Those of a variable that is itself an element of the pattern are its list's elements.
#[cycle(build_build_backwards_build_copies_build_elements_build_ellipsis_build_part)]
fn build_elements(
    work: &mut [u32],
    top: u32,
    fuel: u32,
    env: &[u32; environment::WORDS],
    w: u32,
    e: u32,
    c: u32,
) -> Option<Built>
    requires { Buildable work.old top fuel env.now w e }
    ensures { Backwards work.old work.new top fuel env.now w e c result }
{
    if !environment::is_listed(work, env, e) {
        return build_backwards(work, top, fuel, env, w, e, c);
    }
    let k = cells::word(work, e, rule_cells::cells::NUMBER);
    let list = environment::taken(env, k, 0);
    copy::copy_elements(work, top, fuel, list, w, c)
}

// The copies of an element before the list that ends at the top.
#[cycle(build_build_backwards_build_copies_build_elements_build_ellipsis_build_part)]
fn build_copies(
    work: &mut [u32],
    top: u32,
    fuel: u32,
    env: &[u32; environment::WORDS],
    w: u32,
    e: u32,
    c: u32,
) -> Option<Built>
    requires { Buildable work.old top fuel env.now w e }
    ensures { Copied work.old work.new top fuel env.now w e c result }
{
    let list = build_elements(work, top, fuel, env, w, e, c)?;
    Some(Built {
        at: copy::put_reversed(work, list.at, list.at, top, c),
        left: list.left,
    })
}
