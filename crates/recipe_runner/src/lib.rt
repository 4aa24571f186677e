// A recipe run (request L11, in the form that document 01 names): its items are expanded, and the term's words are run. Both are called by
// their promises alone; what a call answers and leaves stands in specs/Service.antt.
#![tactic(auto)]

ghost use Rattle.std.specs.Prelude.{◌≡◌};
ghost use Rattle.recipe_runner.specs.Service.{RecipeRan};
ghost use Rattle.recipe_runner.specs.declared.RecipeError.TheVariants.{Expansion, Run};

use expander::Refused;
use runner::Outcome;
use words::ground::Ground;

// Why there is no value: expansion refused, on a ground and with its two counts; or the run of its term did.
#[derive(Clone, Copy)]
pub enum RecipeError {
    Expansion(Refused),
    Run(Ground),
}

impl From<Refused> for RecipeError {
    ghost from_gives = { λ x e. e ≡ Expansion x };

    fn from(refused: Refused) -> Self {
        RecipeError::Expansion(refused)
    }
}

impl From<Ground> for RecipeError {
    ghost from_gives = { λ g e. e ≡ Run g };

    fn from(why: Ground) -> Self {
        RecipeError::Run(why)
    }
}

// Expands an item table's recipe into the core table, with a work table that ends zeroed, and runs its term on a budget.
pub fn run_recipe(
    items: &[u32],
    fuel: u32,
    work: &mut [u32],
    core: &mut [u32],
    budget: u32,
    table: &mut [u32],
) -> Result<Outcome, RecipeError>
    ensures { RecipeRan items.now fuel work.old work.new core.old core.new budget table.old table.new result }
{
    let expanded = expander::expand(items, fuel, work, core)?;
    let end = expanded.length as usize;
    let outcome = runner::run(&core[..end], budget, table)?;
    Ok(outcome)
}
