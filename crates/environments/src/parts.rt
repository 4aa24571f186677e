// What a pattern's variable takes from a use at no index, found by walking pattern and use together.

ghost use Rattle.environments.specs.Parts.{Holds, Part};

use crate::shares;
use arena::lists;
use rule_cells::cells;

// Whether the pattern holds variable k.
fn holds(work: &[u32], p: u32, k: u32) -> bool
    ensures { Holds work.now p k result }
{
    match arena::cells::word(work, p, cells::TAG) {
        cells::VARIABLE => k == arena::cells::word(work, p, cells::PATTERN_NUMBER),
        cells::PAIR | cells::ELLIPSIS => {
            let head = arena::cells::reference(work, p, cells::HEAD);
            let tail = arena::cells::reference(work, p, cells::REST);
            holds(work, head, k) || holds(work, tail, k)
        }
        _ => false,
    }
}

// Whether a part of the pattern holds variable k. Another variable is told without a call more.
fn part_holds(work: &[u32], p: u32, k: u32) -> bool
    ensures { Holds work.now p k result }
{
    if arena::cells::word(work, p, cells::TAG) == cells::VARIABLE {
        return k == arena::cells::word(work, p, cells::PATTERN_NUMBER);
    }
    holds(work, p, k)
}

// What variable k takes; at an ellipsis over it, the list that an index would count.
pub fn part(work: &[u32], p: u32, k: u32, u: u32) -> u32
    ensures { Part work.now p k u result }
{
    let mut at = p;
    let mut node = u;
    while arena::cells::word(work, at, cells::TAG) == cells::PAIR {
        let head = arena::cells::reference(work, at, cells::HEAD);
        if part_holds(work, head, k) {
            at = head;
            node = lists::first(work, node);
        } else {
            at = arena::cells::reference(work, at, cells::REST);
            node = lists::rest(work, node);
        }
    }
    let tag = arena::cells::word(work, at, cells::TAG);
    if tag == cells::VARIABLE {
        return node;
    }
    if tag != cells::ELLIPSIS {
        return 0;
    }
    let element = arena::cells::reference(work, at, cells::HEAD);
    if part_holds(work, element, k) {
        return node;
    }
    let after = shares::after(work, at, node);
    let rest = arena::cells::reference(work, at, cells::REST);
    part(work, rest, k, after)
}
