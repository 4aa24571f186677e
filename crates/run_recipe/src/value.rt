// A recipe's value, by way of four lent tables.
ghost use Rattle.std.specs.Prelude.{◌≡◌, length};
ghost use Rattle.words.specs.Limits.{fuel_most};
ghost use Rattle.reading.specs.Read.{read};
ghost use Rattle.recipe_runs.specs.RecipeRun.{recipe_run};
ghost use Rattle.run_output.specs.Output.{program_budget, printed, output_of};
ghost use Rattle.run_recipe.specs.Line.{line_of};

use expander::expand;
use reader::read;
use runner::{Outcome, run};
use words::ground::Ground;
use words::{FUEL, ITEM};

// Units that the largest work table has room for. run_output's specs/Output.antt has the same number.
const PROGRAM_BUDGET: u32 = 18431;

// A recipe's items are expanded, and the term is run in the work table, which expansion is done with.
fn expanded(items: &[u32], work: &mut [u32], core: &mut [u32]) -> Result<Outcome, Ground>
    ensures { line_of result ≡ printed (recipe_run items.now fuel_most (length work.old) (length core.old) program_budget (length work.old)) }
{
    match expand(items, FUEL, work, core) {
        Ok(reached) => {
            let end = reached.length as usize;
            run(&core[..end], PROGRAM_BUDGET, work)
        }
        Err(refused) => Err(refused.ground),
    }
}

// The value of a text's recipe, or the ground on which it is refused in reading, expansion or evaluation.
pub fn value(
    text: &[u8],
    items: &mut [u32],
    names: &mut [u8],
    work: &mut [u32],
    core: &mut [u32],
) -> Result<Outcome, Ground>
    ensures { line_of result ≡ output_of fuel_most (length work.old) (length core.old) program_budget (length work.old) (read text.now (length items.old) (length names.old)) }
{
    let counts = read(text, items, names)?;
    let words = ITEM * counts.items;
    expanded(&items[..words], work, core)
}
