// The shape of a rules form: its head, the ellipsis of its author's choice, its literals and how many rules it has.

ghost use Rattle.std.specs.Prelude.{◌≡◌, false};
ghost use Rattle.recipe.specs.Tree.{on_name};
ghost use Rattle.expansion.specs.Lookup.{is_syntax_rules};
ghost use Rattle.expansion.specs.Rules.{after_chosen, is_literal, is_rules_form};
ghost use Rattle.arena.specs.Arena.{tree_at};
ghost use Rattle.arena.specs.Lists.{Means, Tests};
ghost use Rattle.rule_cells.specs.Dots.{dots_at};
ghost use Rattle.rule_cells.specs.Forms.{literals_all, literals_good, chosen_good, Chosen, rules_body};

use crate::dots;
use crate::dots::Dots;
use arena::{cells, lists};
use datum::base_names;
use resolution::names;

// What the rules of a form are read by: its ellipsis, the list of its literals, and the wrap that waits on all of it.
#[derive(Clone, Copy)]
pub struct Form {
    pub dots: Dots,
    pub literals: u32,
    pub wrap: u32,
}

// Whether a tree may be a literal: a name other than the ellipsis and `_`.
fn may_be_listed(work: &[u32], dots: Dots, node: u32, w: u32) -> bool
    ensures { result ≡ is_literal (dots_at work.now dots w) (tree_at work.now node w) }
{
    if cells::word(work, node, cells::KIND) != cells::NAME {
        return false;
    }
    if dots::is_ellipsis(work, dots, node, w) {
        return false;
    }
    names::number_of(work, node) != names::WILDCARD
}

// Whether all elements of a list may be literals.
fn all_listed(work: &[u32], dots: Dots, node: u32, w: u32) -> bool
    ensures { result ≡ literals_all (dots_at work.now dots w) (tree_at work.now node w) }
{
    let mut at = node;
    while cells::word(work, at, cells::KIND) == cells::PAIR {
        let first = cells::reference(work, at, cells::HEAD);
        if may_be_listed(work, dots, first, w) {
            at = cells::reference(work, at, cells::TAIL);
        } else {
            return false;
        }
    }
    true
}

// Whether a tree is a list of at most 8 literals.
fn literals_good(work: &[u32], dots: Dots, node: u32, w: u32) -> bool
    ensures { result ≡ literals_good (dots_at work.now dots w) (tree_at work.now node w) }
{
    if lists::is_list(work, node) {
        if all_listed(work, dots, node, w) {
            return lists::count(work, node) <= words::LITERALS;
        }
        return false;
    }
    false
}

// Whether a tree is a name whose lookup finds the base form syntax-rules.
fn is_syntax_rules(work: &[u32], node: u32, w: u32) -> bool
    ensures { result ≡ on_name is_syntax_rules false (tree_at work.now node w) }
{
    if cells::word(work, node, cells::KIND) != cells::NAME {
        return false;
    }
    if names::number_of(work, node) != base_names::SYNTAX_RULES {
        return false;
    }
    names::binding_of(work, node, w) == 0
}

// Whether the second element of a form may stand there: a name is the ellipsis of the author's choice, neither `...` nor `_`.
fn chosen_good(work: &[u32], second: u32) -> bool
    ensures { Tests chosen_good work.now second result }
{
    if cells::word(work, second, cells::KIND) != cells::NAME {
        return true;
    }
    names::is_ordinary(work, second)
}

// The ellipsis of a form: the chosen name, or the default.
pub fn ellipsis(work: &[u32], node: u32) -> Dots
    ensures { Chosen work.now node result }
{
    let second = lists::element(work, node, 1);
    if cells::word(work, second, cells::KIND) == cells::NAME {
        return Dots::Chosen(second);
    }
    Dots::Default
}

// A form after syntax-rules and the chosen name, where there is one.
pub fn after_chosen(work: &[u32], node: u32) -> u32
    ensures { Means work.now node result after_chosen }
{
    let rest = lists::rest(work, node);
    let second = lists::first(work, rest);
    if cells::word(work, second, cells::KIND) == cells::NAME {
        return lists::rest(work, rest);
    }
    rest
}

// Whether a tree has the shape of a rules form, past its head.
fn is_rules_body(work: &[u32], node: u32, w: u32) -> bool
    ensures { result ≡ rules_body (tree_at work.now node w) }
{
    let dots = ellipsis(work, node);
    let after = after_chosen(work, node);
    let literals = lists::first(work, after);
    if literals_good(work, dots, literals, w) {
        let list = lists::rest(work, after);
        let n = lists::count(work, list);
        if n == 0 {
            return false;
        }
        return n <= words::RULES;
    }
    false
}

// Whether a tree has the shape of a rules form.
pub fn is_rules_form(work: &[u32], node: u32, w: u32) -> bool
    ensures { result ≡ is_rules_form (tree_at work.now node w) }
{
    let first = lists::first(work, node);
    if is_syntax_rules(work, first, w) {
        let second = lists::element(work, node, 1);
        if chosen_good(work, second) {
            return is_rules_body(work, node, w);
        }
        return false;
    }
    false
}
