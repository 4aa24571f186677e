// Templates, parsed to cells under the variables of their rule's pattern: children first, so that every reference falls.
// A part that breaks the rules makes the whole bad.

ghost use Rattle.std.specs.Prelude.{◌≡◌, false, ◌+◌, ◌^◌, ◌≤◌, ◌<◌, length};
ghost use Rattle.recipe.specs.Tree.{name};
ghost use Rattle.expansion.specs.Rules.{depth_fits, as_element};
ghost use Rattle.arena.specs.Offsets.{KIND};
ghost use Rattle.arena.specs.Arena.{word_at, name_at, tree_at};
ghost use Rattle.arena.specs.Cells.{Room};
ghost use Rattle.rule_cells.specs.Dots.{DotsBelow};
ghost use Rattle.rule_cells.specs.Drive.{Drives, Accepts};
ghost use Rattle.rule_cells.specs.Variables.{Under};
ghost use Rattle.rule_cells.specs.Parse.{Asks, rest_place, TemplateLeft};
ghost use Rattle.rule_cells.specs.Scopes.{dots_under, variables_under};

use crate::dots::Dots;
use crate::rules::Parsed;
use crate::{cells, constructors, dots, variables};
use arena::lists;
use resolution::names;

// What a template is read under: how many variables its rule has, the ellipsis, the wrap that waits on all of
// it, and how many ellipses are around it.
#[derive(Clone, Copy)]
pub struct Scope {
    pub count: u32,
    pub dots: Dots,
    pub wrap: u32,
    pub d: u32,
}

// Whether a template holds a variable that drives its copies: one under more ellipses than the j inside the element.
fn driven(work: &[u32], at: u32, j: u32) -> bool
    requires { j + at < 2 ^ 32 }
    ensures { Drives work.now at j result }
{
    let tag = arena::cells::word(work, at, cells::TAG);
    if tag == cells::VARIABLE {
        return j < arena::cells::word(work, at, cells::DEPTH);
    }
    if tag < cells::PAIR {
        return false;
    }
    if cells::ELLIPSIS < tag {
        return false;
    }
    let first = arena::cells::reference(work, at, cells::HEAD);
    let inner = j + (tag - cells::PAIR);
    if driven(work, first, inner) {
        return true;
    }
    let rest = arena::cells::reference(work, at, cells::REST);
    driven(work, rest, j)
}

// Whether an element may stand before what follows it: before the ellipsis it holds a variable that drives its copies.
fn accepted(work: &[u32], dots: bool, at: u32) -> bool
    ensures { Accepts work.now dots at result }
{
    if dots {
        return driven(work, at, 0);
    }
    true
}

// A variable under d ellipses of the pattern is under at least d of the template.
fn depth_fits(d: u32, here: u32) -> bool
    ensures { result ≡ depth_fits d here }
{
    d <= here
}

// A template's name under d ellipses: a variable, or inserted; the ellipsis itself is none.
fn template_name(
    work: &mut [u32],
    vars: &[u32],
    scope: Scope,
    node: u32,
    top: u32,
) -> Option<Parsed>
    requires { (Room work.old top 5) × (node ≤ top) × (scope.wrap ≤ top) × (scope.count ≤ 16) × (32 ≤ length vars.now) }
    ensures { TemplateLeft (dots_under work.old scope) (variables_under work.old vars.now scope) scope.d as_element (name (name_at work.old node scope.wrap)) work.old work.new top result }
{
    if dots::is_ellipsis(work, scope.dots, node, scope.wrap) {
        return None;
    }
    let Some((k, e)) = variables::find(work, vars, scope.count, node, scope.wrap) else {
        let r = constructors::put_insert(work, top, node, scope.wrap);
        return Some(Parsed { at: r, top: r });
    };
    if !depth_fits(e, scope.d) {
        return None;
    }
    let r = constructors::put_variable_template(work, top, k, e);
    Some(Parsed { at: r, top: r })
}

// A part of a template that is no pair.
fn template_leaf(
    work: &mut [u32],
    vars: &[u32],
    scope: Scope,
    node: u32,
    top: u32,
) -> Option<Parsed>
    requires { (Asks work.old node scope.wrap top) × (scope.count ≤ 16) × (32 ≤ length vars.now) × (word_at work.old node KIND ≡ 4 → ⊥) }
    ensures { TemplateLeft (dots_under work.old scope) (variables_under work.old vars.now scope) scope.d as_element (tree_at work.old node scope.wrap) work.old work.new top result }
{
    let kind = arena::cells::word(work, node, arena::cells::KIND);
    if kind == arena::cells::NAME {
        return template_name(work, vars, scope, node, top);
    }
    if kind == arena::cells::EMPTY {
        return Some(Parsed { at: 0, top });
    }
    let first = arena::cells::word(work, node, arena::cells::FIRST);
    let second = arena::cells::word(work, node, arena::cells::SECOND);
    let r = constructors::put_constant(work, top, kind, first, second);
    Some(Parsed { at: r, top: r })
}

// The rest of a template's list under d ellipses; `taken` where it begins with the ellipsis that the element before it has taken.
#[cycle(list_rest_template)]
fn list_rest(
    work: &mut [u32],
    vars: &[u32],
    scope: Scope,
    node: u32,
    taken: bool,
    top: u32,
) -> Option<Parsed>
    requires { (Asks work.old node scope.wrap top) × (scope.count ≤ 16) × (32 ≤ length vars.now) × (Under vars.now scope.count top) × (DotsBelow scope.dots top) × (scope.d + node < 2 ^ 32) }
    ensures { TemplateLeft (dots_under work.old scope) (variables_under work.old vars.now scope) scope.d (rest_place taken) (tree_at work.old node scope.wrap) work.old work.new top result }
{
    if arena::cells::word(work, node, arena::cells::KIND) != arena::cells::PAIR {
        return template_leaf(work, vars, scope, node, top);
    }
    let head = arena::cells::reference(work, node, arena::cells::HEAD);
    let rest = arena::cells::reference(work, node, arena::cells::TAIL);
    if taken {
        return list_rest(work, vars, scope, rest, false, top);
    }
    let followed = dots::dots_next(work, scope.dots, rest, scope.wrap);
    let inner = Scope {
        d: variables::element_depth(followed, scope.d),
        ..scope
    };
    let element = template(work, vars, inner, head, top)?;
    if !accepted(work, followed, element.at) {
        return None;
    }
    let later = list_rest(work, vars, scope, rest, followed, element.top)?;
    let r = constructors::put_list(work, later.top, followed, element.at, 0, later.at);
    Some(Parsed { at: r, top: r })
}

// A template, whole or an element, under d ellipses. A list that begins with the ellipsis is an escape, of two elements: in the
// second no name is the ellipsis.
#[cycle(list_rest_template)]
pub fn template(work: &mut [u32], vars: &[u32], scope: Scope, node: u32, top: u32) -> Option<Parsed>
    requires { (Asks work.old node scope.wrap top) × (scope.count ≤ 16) × (32 ≤ length vars.now) × (Under vars.now scope.count top) × (DotsBelow scope.dots top) × (scope.d + node < 2 ^ 32) }
    ensures { TemplateLeft (dots_under work.old scope) (variables_under work.old vars.now scope) scope.d as_element (tree_at work.old node scope.wrap) work.old work.new top result }
{
    if arena::cells::word(work, node, arena::cells::KIND) != arena::cells::PAIR {
        return template_leaf(work, vars, scope, node, top);
    }
    if dots::dots_next(work, scope.dots, node, scope.wrap) {
        let rest = arena::cells::reference(work, node, arena::cells::TAIL);
        if lists::is_list_of(work, rest, 1) {
            let inside = lists::first(work, rest);
            let escaped = Scope {
                dots: Dots::Never,
                ..scope
            };
            return template(work, vars, escaped, inside, top);
        }
        return None;
    }
    list_rest(work, vars, scope, node, false, top)
}
