// The expansion service. What its tables mean and what a call leaves stands in specs/.
#![tactic(auto)]

mod cycle;
mod ending;
mod start;

ghost use Rattle.expander.specs.Service.{Served};

use layout::operation;
pub use turns::answers::Refused;
use words::ground::Ground;

// Accepted: the two counts, and the term's length.
#[derive(Clone, Copy)]
pub struct Expanded {
    pub steps: u32,
    pub sum: u32,
    pub length: u32,
}

// Expands an item table's recipe into the core table, with a work table that ends zeroed; or says its ground and, for those of a
// run that has begun, the counts of completed steps.
pub fn expand(
    items: &[u32],
    fuel: u32,
    work: &mut [u32],
    core: &mut [u32],
) -> Result<Expanded, Refused>
    ensures { Served items.now fuel work.old work.new core.old core.new result }
{
    if !layout::is_layout(items) {
        return Err(Ground::BadLayout.into());
    }
    if !layout::fuel_fits(fuel) {
        return Err(Ground::TooMuchFuel.into());
    }
    let n = items.len() / 3;
    if !layout::tables_fit(n, n, fuel, work.len(), core.len()) {
        return Err(Ground::SmallTables.into());
    }
    let mut operations = [0u16; words::NAMES];
    if !operation::operations(items, &mut operations) {
        return Err(Ground::BadOperations.into());
    }
    let ended = start::expand_recipe(items, work, core, &operations, fuel);
    work.fill(0);
    ending::finish(core, ended)
}
