// The rules of a form's macros, parsed once, when the form is reached.

ghost use Rattle.std.specs.Prelude.{◌≡◌, true, cond, ℕ};
ghost use Rattle.expansion.specs.Forms.{is_macros};
ghost use Rattle.arena.specs.Arena.{tree_at};
ghost use Rattle.turns.specs.MacroRules.{OneAsk, OneLeft, AllAsk, AllLeft};
ghost use Rattle.turns.specs.MacroTurns.{MacroRoom, is_inside, KnownLeft, MacrosLeft};

use crate::answers::{Reached, Refused, Turn};
use crate::listed::Listed;
use arena::{cells, lists};
use forms::shapes::Bound;
use forms::{binders, shapes};
use rule_cells::rules;
use words::ground::Ground;

// Whether the rules of a form's macros stand inside the scope of its names: letrec-syntax's do, and let-syntax's do not.
#[derive(Clone, Copy)]
pub enum RulesStand {
    Outside,
    Inside,
}

// The rules of macro `count`.
fn one_macro(
    work: &mut [u32],
    macros: &mut [u32],
    form: u32,
    wrap: u32,
    count: u32,
    top: u32,
) -> Option<u32>
    requires { OneAsk work.old macros.old form wrap count top }
    ensures { OneLeft (tree_at work.old form wrap) work.old work.new macros.old macros.new count top result }
{
    let parsed = rules::rules(work, form, wrap, top)?;
    macros[count as usize] = parsed.at;
    Some(parsed.top)
}

// The rules of each (name rules) of a list, as macros from `count` on.
fn all_macros(
    work: &mut [u32],
    macros: &mut [u32],
    list: u32,
    wrap: u32,
    count: u32,
    top: u32,
) -> Option<u32>
    requires { AllAsk work.old macros.old list wrap count top }
    ensures { AllLeft (tree_at work.old list wrap) work.old work.new macros.old macros.new count top result }
{
    let mut at = list;
    let mut n = count;
    let mut end = top;
    while cells::word(work, at, cells::KIND) == cells::PAIR {
        let entry = cells::reference(work, at, cells::HEAD);
        let form = lists::element(work, entry, 1);
        at = cells::reference(work, at, cells::TAIL);
        end = one_macro(work, macros, form, wrap, n, end)?;
        n += 1;
    }
    Some(end)
}

// The wrap of a form's rules: that of its scope, or the one round the form.
fn rules_wrap(stand: RulesStand, scope: u32, outer: u32) -> u32
    ensures { result ≡ cond (is_inside stand) scope outer }
{
    match stand {
        RulesStand::Outside => outer,
        RulesStand::Inside => scope,
    }
}

// A form's macros, past its tests, whatever limit it has passed: its body stands for it.
fn macros_body(
    work: &mut [u32],
    macros: &mut [u32],
    form: Listed,
    stand: RulesStand,
    reached: Reached,
) -> Result<Turn, Refused>
    requires { (MacroRoom work.old macros.old form.node form.wrap reached) × ((limit : ℕ) × (is_macros limit (tree_at work.old form.node form.wrap) ≡ true)) }
    ensures { KnownLeft (tree_at work.old form.node form.wrap) (is_inside stand) reached work.old work.new macros.old macros.new result }
{
    let first = reached.macros;
    let list = lists::element(work, form.node, 1);
    let count = lists::count(work, list);
    let body = lists::element(work, form.node, 2);
    let scope = binders::bind(
        work,
        form.node,
        form.wrap,
        Bound::Keywords,
        first,
        reached.top,
    );
    let within = rules_wrap(stand, scope.wrap, form.wrap);
    let Some(top) = all_macros(work, macros, list, within, first, scope.top) else {
        return Err(reached.refused(Ground::BadRules));
    };
    Ok(Turn::Again(body, scope.wrap, reached.grown(top, count)))
}

// (let-syntax ((name rules) ...) body) of at most `limit` macros, and letrec-syntax, whose rules stand inside the scope
pub fn let_syntax(
    work: &mut [u32],
    macros: &mut [u32],
    form: Listed,
    stand: RulesStand,
    limit: u32,
    reached: Reached,
) -> Result<Turn, Refused>
    requires { MacroRoom work.old macros.old form.node form.wrap reached }
    ensures { MacrosLeft limit (tree_at work.old form.node form.wrap) (is_inside stand) reached work.old work.new macros.old macros.new result }
{
    if !shapes::is_macros(work, form.node, limit) {
        return Err(reached.refused(Ground::BadForm));
    }
    if !binders::names_distinct(work, form.node, form.wrap, Bound::Keywords) {
        return Err(reached.refused(Ground::DoubleName));
    }
    macros_body(work, macros, form, stand, reached)
}
