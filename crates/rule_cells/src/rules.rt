// Rules, parsed once, when their form is reached: (syntax-rules (literal ...) (pattern template) ...), with or without an ellipsis
// name of the author's choice before the literals. Bad is ground 15.
// The last rule is parsed first, so that each cell refers to lower ones.

ghost use Rattle.std.specs.Prelude.{◌≡◌, ◌+◌, ◌≤◌};
ghost use Rattle.recipe.specs.Tree.{size, elements};
ghost use Rattle.words.specs.Options.{traverse};
ghost use Rattle.expansion.specs.Rules.{rule_of, rules_of};
ghost use Rattle.arena.specs.Arena.{tree_at};
ghost use Rattle.rule_cells.specs.Dots.{dots_at, DotsBelow};
ghost use Rattle.rule_cells.specs.Parse.{Asks};
ghost use Rattle.rule_cells.specs.RuleParse.{rule_shape, parts_of, PartsAsk, RuleLeft, RulesLeft};
ghost use Rattle.rule_cells.specs.Scopes.{dots_of, literals_of};

use crate::dots::Dots;
use crate::rules_form::Form;
use crate::templates::Scope;
use crate::{constructors, dots, patterns, rules_form, templates, variables};
use arena::{cells, lists};

// What has been parsed: the reference of its cell, and the new top.
#[derive(Clone, Copy)]
pub struct Parsed {
    pub at: u32,
    pub top: u32,
}

// A rule from the rest p of its pattern and its template q, before the rules at `next`.
fn rule_parts(work: &mut [u32], form: Form, p: u32, q: u32, next: u32, top: u32) -> Option<Parsed>
    requires { PartsAsk work.old form p q next top }
    ensures { RuleLeft (parts_of (dots_of work.old form) (literals_of work.old form) (tree_at work.old p form.wrap) (tree_at work.old q form.wrap)) (size (tree_at work.old p form.wrap) + size (tree_at work.old q form.wrap) + 1) work.old work.new next top result }
{
    let mut vars = [0u32; variables::WORDS];
    let count = variables::gather(work, &mut vars, form, p, 0, 0)?;
    let pattern = patterns::pattern(work, form, p, 0, false, top)?;
    let scope = Scope {
        count,
        dots: form.dots,
        wrap: form.wrap,
        d: 0,
    };
    let template = templates::template(work, &vars, scope, q, pattern.top)?;
    let r = constructors::put_rule(work, template.top, pattern.at, template.at, next);
    Some(Parsed { at: r, top: r })
}

// Whether a tree is a list of two whose first begins with a name other than the ellipsis.
fn rule_shape(work: &[u32], dots: Dots, node: u32, w: u32) -> bool
    ensures { result ≡ rule_shape (dots_at work.now dots w) (tree_at work.now node w) }
{
    if lists::is_list_of(work, node, 2) {
        let pattern = lists::first(work, node);
        let first = lists::first(work, pattern);
        if cells::word(work, first, cells::KIND) != cells::NAME {
            return false;
        }
        return !dots::is_ellipsis(work, dots, first, w);
    }
    false
}

// A rule, (pattern template), before the rules at `next`.
fn rule(work: &mut [u32], form: Form, node: u32, next: u32, top: u32) -> Option<Parsed>
    requires { (Asks work.old node form.wrap top) × (DotsBelow form.dots top) × (form.literals ≤ top) × (next ≤ top) }
    ensures { RuleLeft (rule_of (dots_of work.old form) (literals_of work.old form) (tree_at work.old node form.wrap)) (size (tree_at work.old node form.wrap)) work.old work.new next top result }
{
    if rule_shape(work, form.dots, node, form.wrap) {
        let pattern = lists::first(work, node);
        let p = lists::rest(work, pattern);
        let after = lists::rest(work, node);
        let q = lists::first(work, after);
        return rule_parts(work, form, p, q, next, top);
    }
    None
}

// A list of rules, the last first.
fn rule_list(work: &mut [u32], form: Form, node: u32, top: u32) -> Option<Parsed>
    requires { (Asks work.old node form.wrap top) × (DotsBelow form.dots top) × (form.literals ≤ top) }
    ensures { RulesLeft (traverse (rule_of (dots_of work.old form) (literals_of work.old form)) (elements (tree_at work.old node form.wrap))) (size (tree_at work.old node form.wrap)) work.old work.new top result }
{
    if cells::word(work, node, cells::KIND) != cells::PAIR {
        return Some(Parsed { at: 0, top });
    }
    let head = cells::reference(work, node, cells::HEAD);
    let rest = cells::reference(work, node, cells::TAIL);
    let later = rule_list(work, form, rest, top)?;
    rule(work, form, head, later.at, later.top)
}

// The rules of a form.
pub fn rules(work: &mut [u32], node: u32, w: u32, top: u32) -> Option<Parsed>
    requires { Asks work.old node w top }
    ensures { RulesLeft (rules_of (tree_at work.old node w)) (size (tree_at work.old node w)) work.old work.new top result }
{
    if rules_form::is_rules_form(work, node, w) {
        let dots = rules_form::ellipsis(work, node);
        let after = rules_form::after_chosen(work, node);
        let form = Form {
            dots,
            literals: lists::first(work, after),
            wrap: w,
        };
        let list = lists::rest(work, after);
        return rule_list(work, form, list, top);
    }
    None
}
