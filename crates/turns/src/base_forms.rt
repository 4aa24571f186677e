// Turns of forms: quote, if and lambda. What they leave is said by words alone; the laws of specs/ make a turn of it.

ghost use Rattle.std.specs.Prelude.{◌≡◌, true};
ghost use Rattle.expansion.specs.Forms.{is_lambda};
ghost use Rattle.arena.specs.Arena.{tree_at};
ghost use Rattle.turns.specs.Memory.{CoreRoom};
ghost use Rattle.turns.specs.Scopes.{Roomy, QuoteRoom, QuoteLeft, IfLeft, BoundLeft, LambdaLeft};

use crate::answers::{Reached, Refused, Turn};
use crate::listed::Listed;
use crate::output;
use arena::lists;
use core_term::codes;
use forms::shapes::Bound;
use forms::{binders, quotes, shapes};
use words::ground::Ground;

// (quote d): the words of d without marks and bindings.
pub fn quoted(
    work: &[u32],
    core: &mut [u32],
    node: u32,
    reached: Reached,
) -> Result<Reached, Refused>
    requires { QuoteRoom work.now core.old node reached }
    ensures { QuoteLeft work.now node reached core.old core.new result }
{
    if !lists::is_list_of(work, node, 2) {
        return Err(reached.refused(Ground::BadForm));
    }
    let datum = lists::element(work, node, 1);
    let at = quotes::quote(work, datum, core, reached.at as usize);
    Ok(reached.moved(at as u32))
}

// (if a b c): its word, then three operands.
pub fn condition(
    work: &[u32],
    core: &mut [u32],
    form: Listed,
    reached: Reached,
) -> Result<Turn, Refused>
    requires { CoreRoom core.old reached.at 1 }
    ensures { IfLeft work.now form.node form.tail form.wrap reached core.old core.new result }
{
    if !lists::is_list_of(work, form.node, 4) {
        return Err(reached.refused(Ground::BadForm));
    }
    Ok(Turn::Operands(form.tail, form.wrap, output::put_if(core, reached)))
}

// A lambda's binders and words, past its tests: its body stands for it.
fn lambda_body(work: &mut [u32], core: &mut [u32], form: Listed, reached: Reached) -> Turn
    requires { (Roomy work.old core.old form.node form.wrap reached) × (is_lambda (tree_at work.old form.node form.wrap) ≡ true) }
    ensures { BoundLeft (tree_at work.old form.node form.wrap) reached work.old work.new core.old core.new result }
{
    let first = reached.variables;
    let list = lists::element(work, form.node, 1);
    let count = lists::count(work, list);
    let body = lists::element(work, form.node, 2);
    let at = quotes::put(core, reached.at as usize, &[codes::LAMBDA, first, count]);
    let end = binders::put_numbers(work, list, core, at);
    let scope = binders::bind(
        work,
        form.node,
        form.wrap,
        Bound::Formals,
        first,
        reached.top,
    );
    Turn::Again(
        body,
        scope.wrap,
        reached.widened(scope.top, end as u32, count),
    )
}

// (lambda (name ...) body)
pub fn lambda(
    work: &mut [u32],
    core: &mut [u32],
    form: Listed,
    reached: Reached,
) -> Result<Turn, Refused>
    requires { Roomy work.old core.old form.node form.wrap reached }
    ensures { LambdaLeft (tree_at work.old form.node form.wrap) reached work.old work.new core.old core.new result }
{
    if !shapes::is_lambda(work, form.node) {
        return Err(reached.refused(Ground::BadForm));
    }
    if !binders::names_distinct(work, form.node, form.wrap, Bound::Formals) {
        return Err(reached.refused(Ground::DoubleName));
    }
    Ok(lambda_body(work, core, form, reached))
}
