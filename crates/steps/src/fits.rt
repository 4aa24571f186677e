// Matching: whether a pattern fits a use, and the first rule that does (ground 16 where none does).

ghost use Rattle.std.specs.Prelude.{◌≡◌};
ghost use Rattle.arena.specs.Arena.{word_at};
ghost use Rattle.steps.specs.Fits.{Fits, LiteralFits, ConstantFits, FirstFit};

use arena::cells;
use datum::constants;
use environments::shares;
use resolution::names;

// A literal fits a name whose lookup finds what its own has found.
fn literal_fits(work: &[u32], p: u32, u: u32, w: u32) -> bool
    ensures { LiteralFits work.now p u w result }
{
    if cells::word(work, u, cells::KIND) != cells::NAME {
        return false;
    }
    let number = cells::word(work, p, rule_cells::cells::LITERAL_NUMBER);
    let binding = cells::word(work, p, rule_cells::cells::LITERAL_KEY);
    names::agrees(work, number, binding, u, w)
}

// A constant is matched with a constant alone.
fn constant_fits(work: &[u32], p: u32, u: u32) -> bool
    ensures { ConstantFits work.now p u result }
{
    let kind = cells::word(work, u, cells::KIND);
    if kind == cells::EMPTY {
        return false;
    }
    if kind == cells::NAME {
        return false;
    }
    if kind == cells::PAIR {
        return false;
    }
    constants::matches(
        cells::word(work, p, rule_cells::cells::KIND),
        cells::word(work, p, rule_cells::cells::FIRST),
        cells::word(work, p, rule_cells::cells::SECOND),
        kind,
        cells::word(work, u, cells::FIRST),
        cells::word(work, u, cells::SECOND),
    )
}

// Whether a pattern that is no pair fits a use.
#[cycle(each_fits_end_fits_fits_part_fits)]
fn end_fits(work: &[u32], p: u32, u: u32, w: u32) -> bool
    requires { word_at work.now p 1 ≡ 6 → ⊥ }
    ensures { Fits work.now p u w result }
{
    let tag = cells::word(work, p, rule_cells::cells::TAG);
    if tag == rule_cells::cells::VARIABLE {
        return true;
    }
    if tag == rule_cells::cells::NAME {
        return literal_fits(work, p, u, w);
    }
    if tag == rule_cells::cells::WILDCARD {
        return true;
    }
    if tag == rule_cells::cells::CONSTANT {
        return constant_fits(work, p, u);
    }
    if tag == rule_cells::cells::ELLIPSIS {
        return each_fits(work, p, u, w);
    }
    cells::word(work, u, cells::KIND) == cells::EMPTY
}

// Whether a part of a pattern fits. A variable takes anything, without a call more.
#[cycle(each_fits_end_fits_fits_part_fits)]
fn part_fits(work: &[u32], p: u32, u: u32, w: u32) -> bool
    ensures { Fits work.now p u w result }
{
    if cells::word(work, p, rule_cells::cells::TAG) == rule_cells::cells::VARIABLE {
        return true;
    }
    fits(work, p, u, w)
}

// Whether a pattern fits a use, from the left, up to the first misfit.
#[cycle(each_fits_end_fits_fits_part_fits)]
fn fits(work: &[u32], p: u32, u: u32, w: u32) -> bool
    ensures { Fits work.now p u w result }
{
    let mut at = p;
    let mut node = u;
    while cells::word(work, at, rule_cells::cells::TAG) == rule_cells::cells::PAIR {
        if cells::word(work, node, cells::KIND) != cells::PAIR {
            return false;
        }
        let head = cells::reference(work, at, rule_cells::cells::HEAD);
        let first = cells::reference(work, node, cells::HEAD);
        if !part_fits(work, head, first, w) {
            return false;
        }
        at = cells::reference(work, at, rule_cells::cells::REST);
        node = cells::reference(work, node, cells::TAIL);
    }
    end_fits(work, at, node, w)
}

// Whether an ellipsis fits a list: the elements that it takes, all but as many as follow it, then the rest. A second node is ahead of
// the first by as many; a list that has fewer does not fit.
#[cycle(each_fits_end_fits_fits_part_fits)]
fn each_fits(work: &[u32], p: u32, list: u32, w: u32) -> bool
    requires { word_at work.now p 1 ≡ 7 }
    ensures { Fits work.now p list w result }
{
    let Some(behind) = shares::look_ahead(work, p, list) else {
        return false;
    };
    let element = cells::reference(work, p, rule_cells::cells::HEAD);
    let mut node = list;
    let mut ahead = behind;
    while cells::word(work, ahead, cells::KIND) == cells::PAIR {
        let first = cells::reference(work, node, cells::HEAD);
        if !part_fits(work, element, first, w) {
            return false;
        }
        node = cells::reference(work, node, cells::TAIL);
        ahead = cells::reference(work, ahead, cells::TAIL);
    }
    let rest = cells::reference(work, p, rule_cells::cells::REST);
    fits(work, rest, node, w)
}

// The first of the rules that fits the use.
pub fn first_fit(work: &[u32], rules: u32, u: u32, w: u32) -> Option<u32>
    ensures { FirstFit work.now rules u w result }
{
    let mut rule = rules;
    while rule != 0 {
        if fits(
            work,
            cells::reference(work, rule, rule_cells::cells::PATTERN),
            u,
            w,
        ) {
            return Some(rule);
        }
        rule = cells::reference(work, rule, rule_cells::cells::NEXT);
    }
    None
}
