// The variables of a pattern: names other than the ellipsis, `_` and the listed literals, gathered from the left into a small table,
// node and depth of each. specs/Variables.antt says what the table holds. All names here lie under one pending wrap.

ghost use Rattle.std.specs.Prelude.{◌≡◌, cond, [], ◌∷◌, ◌+◌, ◌*◌, ◌^◌, ◌≤◌, ◌<◌, length};
ghost use Rattle.words.specs.Code.Answer.{option_of};
ghost use Rattle.words.specs.Lists.{any_of};
ghost use Rattle.recipe.specs.Name.{same};
ghost use Rattle.recipe.specs.Tree.{name, names};
ghost use Rattle.expansion.specs.Rules.{is_variable, variable_from, variables};
ghost use Rattle.arena.specs.Arena.{name_at, tree_at};
ghost use Rattle.rule_cells.specs.Dots.{dots_at};
ghost use Rattle.rule_cells.specs.Variables.{variables_from, Deeper, Held, Gathered};
ghost use Rattle.rule_cells.specs.Scopes.{dots_of, literals_of};

use crate::dots;
use crate::dots::Dots;
use crate::rules_form::Form;
use arena::cells;
use resolution::names;

// The words of the table: two for each of the most variables of a pattern.
pub const WORDS: usize = 2 * words::VARIABLES as usize;

// Whether a name is the same as one of the names of a list.
fn is_literal(work: &[u32], list: u32, node: u32, w: u32) -> bool
    ensures { result ≡ any_of (same (name_at work.now node w)) (names (tree_at work.now list w)) }
{
    let mut at = list;
    let mut kind = cells::word(work, at, cells::KIND);
    while kind == cells::PAIR {
        let first = cells::reference(work, at, cells::HEAD);
        if is_literal(work, first, node, w) {
            return true;
        }
        at = cells::reference(work, at, cells::TAIL);
        kind = cells::word(work, at, cells::KIND);
    }
    if kind == cells::NAME {
        return names::same_names(work, node, w, at, w);
    }
    false
}

// Whether a pattern's name is a variable: neither the ellipsis nor `_` nor the same as a listed literal.
pub fn is_variable(work: &[u32], form: Form, node: u32) -> bool
    ensures { result ≡ is_variable (dots_of work.now form) (literals_of work.now form) (name_at work.now node form.wrap) }
{
    if dots::is_ellipsis(work, form.dots, node, form.wrap) {
        return false;
    }
    if names::number_of(work, node) == names::WILDCARD {
        return false;
    }
    if is_literal(work, form.literals, node, form.wrap) {
        return false;
    }
    true
}

// Which of the table's variables a name is the same as: its number and its depth.
pub fn find(work: &[u32], vars: &[u32], count: u32, node: u32, w: u32) -> Option<(u32, u32)>
    requires { (count ≤ 16) × (32 ≤ length vars.now) }
    ensures { option_of result ≡ variable_from 0 (variables_from work.now w vars.now 0 count) (name_at work.now node w) }
{
    for k in 0..count {
        let at = 2 * (k as usize);
        if names::same_names(work, vars[at], w, node, w) {
            return Some((k, vars[at + 1]));
        }
    }
    None
}

// The depth of an element of a list at depth d: one more before the ellipsis.
pub fn element_depth(followed: bool, d: u32) -> u32
    requires { d + 1 < 2 ^ 32 }
    ensures { result ≡ cond followed (d + 1) d }
{
    if followed {
        return d + 1;
    }
    d
}

// The depth of an element before this rest of its list.
fn depth_before(work: &[u32], dots: Dots, rest: u32, w: u32, d: u32) -> u32
    requires { d + 1 < 2 ^ 32 }
    ensures { Deeper (dots_at work.now dots w) (tree_at work.now rest w) d result }
{
    element_depth(dots::dots_next(work, dots, rest, w), d)
}

// One more variable behind the n of the table, under d ellipses: how many the table then holds, where they keep the limits: at most 16,
// no two the same, and none under three ellipses.
fn add(work: &[u32], vars: &mut [u32], node: u32, w: u32, d: u32, n: u32) -> Option<u32>
    requires { (32 ≤ length vars.old) × (Held work.now w vars.old n) }
    ensures { Gathered ((name_at work.now node w, d) ∷ []) work.now w node n vars.old vars.new result }
{
    if words::DEPTH < d {
        return None;
    }
    if words::VARIABLES <= n {
        return None;
    }
    if find(work, vars, n, node, w).is_some() {
        return None;
    }
    let at = 2 * (n as usize);
    vars[at] = node;
    vars[at + 1] = d;
    Some(n + 1)
}

// The variable of a pattern's name, where it is one: how many the table then holds, where they keep the limits.
fn gather_name(work: &[u32], vars: &mut [u32], form: Form, node: u32, d: u32, n: u32) -> Option<u32>
    requires { (32 ≤ length vars.old) × (Held work.now form.wrap vars.old n) }
    ensures { Gathered (variables (dots_of work.now form) (literals_of work.now form) d (name (name_at work.now node form.wrap))) work.now form.wrap node n vars.old vars.new result }
{
    if !is_variable(work, form, node) {
        return Some(n);
    }
    add(work, vars, node, form.wrap, d, n)
}

// The variables of a pattern from the left, each with the number of ellipses it lies under, behind the n of the table: how many
// the table then holds, where they keep the limits.
pub fn gather(work: &[u32], vars: &mut [u32], form: Form, node: u32, d: u32, n: u32) -> Option<u32>
    requires { (32 ≤ length vars.old) × (Held work.now form.wrap vars.old n) × (d + node < 2 ^ 32) }
    ensures { Gathered (variables (dots_of work.now form) (literals_of work.now form) d (tree_at work.now node form.wrap)) work.now form.wrap node n vars.old vars.new result }
{
    let mut at = node;
    let mut m = n;
    while cells::word(work, at, cells::KIND) == cells::PAIR {
        let head = cells::reference(work, at, cells::HEAD);
        let rest = cells::reference(work, at, cells::TAIL);
        let inner = depth_before(work, form.dots, rest, form.wrap, d);
        m = gather(work, vars, form, head, inner, m)?;
        at = rest;
    }
    if cells::word(work, at, cells::KIND) == cells::NAME {
        return gather_name(work, vars, form, at, d, m);
    }
    Some(m)
}
