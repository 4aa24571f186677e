// What variables take: found once for a rule and a use, and then read by the copies of the two ellipses next round a place.

ghost use Rattle.environments.specs.Binding.{Bindable, BoundTo, TakenAt, CopiesAt};

use crate::entries::Entry;
use crate::fill::Free;
use crate::{blocks, columns, entries, fill};

// What the variables of a pattern take from a use that fits it: entries, and above the top a row and blocks; the new top. The items of the
// use that the pattern goes into are visited, each list along its pairs twice, and the pattern's cells twice.
pub fn bind(work: &mut [u32], env: &mut [u32; entries::WORDS], p: u32, u: u32, top: u32) -> u32
    requires { Bindable work.old env.old p u top }
    ensures { BoundTo work.old work.new env.new p u top result }
{
    let width = fill::slots(work, p, 0);
    let y = fill::fill(
        work,
        p,
        u,
        Free {
            slot: top,
            top: top + width,
        },
    );
    columns::columns(
        work,
        env,
        p,
        Entry {
            level: 1,
            whole: top,
            first: 0,
            second: 0,
        },
    );
    y.top
}

// The node that variable k takes under d ellipses, in copy `inner` of an element in copy `outer` of the one round it: one or two words of
// blocks are read.
pub fn taken(
    work: &[u32],
    env: &[u32; entries::WORDS],
    k: u32,
    d: u32,
    outer: u32,
    inner: u32,
) -> u32
    ensures { TakenAt work.now env.now k d outer inner result }
{
    let table: &[u32] = env;
    if words::VARIABLES <= k {
        return 0;
    }
    let x = entries::get(table, k as usize);
    if x.level == 0 {
        return 0;
    }
    if x.level - 1 != d {
        return 0;
    }
    if d == 0 {
        return x.whole;
    }
    if d == 1 {
        return blocks::slot(work, x.whole, x.first, inner);
    }
    if blocks::count(work, x.whole) <= outer {
        return 0;
    }
    let block = blocks::slot(work, x.whole, x.first, outer);
    blocks::slot(work, block, x.second, inner)
}

// How many copies the list of variable k drives, where `outside` of its ellipses are outside, in copy `inner`: one or two words of blocks
// are read.
pub fn copies(work: &[u32], env: &[u32; entries::WORDS], k: u32, outside: u32, inner: u32) -> u32
    ensures { CopiesAt work.now env.now k outside inner result }
{
    let table: &[u32] = env;
    if words::VARIABLES <= k {
        return 0;
    }
    let x = entries::get(table, k as usize);
    if x.level < 2 {
        return 0;
    }
    if outside == 0 {
        return blocks::count(work, x.whole);
    }
    if x.level < 3 {
        return 0;
    }
    if blocks::count(work, x.whole) <= inner {
        return 0;
    }
    let block = blocks::slot(work, x.whole, x.first, inner);
    blocks::count(work, block)
}
