// Patterns, parsed to cells: children first, so that every reference falls. A part that breaks the rules makes the whole bad.

ghost use Rattle.std.specs.Prelude.{◌≡◌, true, false, ◌+◌, ◌^◌, ◌≤◌, ◌<◌};
ghost use Rattle.recipe.specs.Tree.{name, names, size};
ghost use Rattle.arena.specs.Offsets.{KIND};
ghost use Rattle.arena.specs.Arena.{word_at, name_at, tree_at};
ghost use Rattle.arena.specs.Cells.{Room};
ghost use Rattle.expansion.specs.Rules.{dots_next};
ghost use Rattle.rule_cells.specs.Dots.{DotsBelow};
ghost use Rattle.rule_cells.specs.Parse.{Asks, Behind, PatternLeft};
ghost use Rattle.rule_cells.specs.Scopes.{dots_of, literals_of};

use crate::rules_form::Form;
use crate::{constructors, dots, variables};
use arena::{cells, lists};
use resolution::names;

// What has been parsed: the reference of the pattern's cell, the new top, and the number of the next variable.
#[derive(Clone, Copy)]
pub struct ParsedPattern {
    pub at: u32,
    pub top: u32,
    pub next: u32,
}

// A pattern's name, with k variables to its left: the ellipsis itself is none.
fn pattern_name(work: &mut [u32], form: Form, node: u32, k: u32, top: u32) -> Option<ParsedPattern>
    requires { (Room work.old top 5) × (node ≤ top) × (form.wrap ≤ top) × (k + 1 < 2 ^ 32) }
    ensures { PatternLeft (dots_of work.old form) (literals_of work.old form) k false (name (name_at work.old node form.wrap)) work.old work.new top result }
{
    if dots::is_ellipsis(work, form.dots, node, form.wrap) {
        return None;
    }
    let number = names::number_of(work, node);
    if variables::is_variable(work, form, node) {
        let r = constructors::put_variable(work, top, k);
        return Some(ParsedPattern {
            at: r,
            top: r,
            next: k + 1,
        });
    }
    if number == names::WILDCARD {
        let r = constructors::put_wildcard(work, top);
        return Some(ParsedPattern {
            at: r,
            top: r,
            next: k,
        });
    }
    let key = names::binding_of(work, node, form.wrap);
    let r = constructors::put_literal(work, top, node, form.wrap, number, key);
    Some(ParsedPattern {
        at: r,
        top: r,
        next: k,
    })
}

// A part of a pattern that is no pair.
fn pattern_leaf(work: &mut [u32], form: Form, node: u32, k: u32, top: u32) -> Option<ParsedPattern>
    requires { (Asks work.old node form.wrap top) × (k + 1 < 2 ^ 32) × (word_at work.old node KIND ≡ 4 → ⊥) }
    ensures { PatternLeft (dots_of work.old form) (literals_of work.old form) k false (tree_at work.old node form.wrap) work.old work.new top result }
{
    let kind = cells::word(work, node, cells::KIND);
    if kind == cells::NAME {
        return pattern_name(work, form, node, k, top);
    }
    if kind == cells::EMPTY {
        return Some(ParsedPattern {
            at: 0,
            top,
            next: k,
        });
    }
    let first = cells::word(work, node, cells::FIRST);
    let second = cells::word(work, node, cells::SECOND);
    let r = constructors::put_constant(work, top, kind, first, second);
    Some(ParsedPattern {
        at: r,
        top: r,
        next: k,
    })
}

// How many elements stand behind the ellipsis that the rest of a list begins with.
fn following(work: &[u32], rest: u32, followed: bool) -> u32
    ensures { Behind work.now rest followed result }
{
    if followed {
        let after = lists::rest(work, rest);
        return lists::count(work, after);
    }
    0
}

// A part of a pattern, with k variables to its left; `taken` where it begins with the ellipsis that the element before it has
// taken. A list has one ellipsis at the most.
pub fn pattern(
    work: &mut [u32],
    form: Form,
    node: u32,
    k: u32,
    taken: bool,
    top: u32,
) -> Option<ParsedPattern>
    requires { (Asks work.old node form.wrap top) × (DotsBelow form.dots top) × (form.literals ≤ top) × (k + size (tree_at work.old node form.wrap) < 2 ^ 32) × (taken ≡ true → dots_next (dots_of work.old form) (tree_at work.old node form.wrap) ≡ true) }
    ensures { PatternLeft (dots_of work.old form) (literals_of work.old form) k taken (tree_at work.old node form.wrap) work.old work.new top result }
{
    if cells::word(work, node, cells::KIND) != cells::PAIR {
        return pattern_leaf(work, form, node, k, top);
    }
    let head = cells::reference(work, node, cells::HEAD);
    let rest = cells::reference(work, node, cells::TAIL);
    if taken {
        return pattern(work, form, rest, k, false, top);
    }
    let followed = dots::dots_next(work, form.dots, rest, form.wrap);
    if dots::crowded(work, form.dots, rest, form.wrap, followed) {
        return None;
    }
    let count = following(work, rest, followed);
    let element = pattern(work, form, head, k, false, top)?;
    let later = pattern(work, form, rest, element.next, followed, element.top)?;
    let r = constructors::put_list(work, later.top, followed, element.at, count, later.at);
    Some(ParsedPattern {
        at: r,
        top: r,
        next: later.next,
    })
}
