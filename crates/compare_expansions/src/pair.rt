// A recipe's text and a supplier's, by way of six lent tables.
ghost use Rattle.std.specs.Prelude.{◌≡◌, length};
ghost use Rattle.words.specs.Limits.{fuel_most};
ghost use Rattle.reading.specs.Read.{read, read_elements};
ghost use Rattle.comparison_output.specs.Output.{printed_for, output_of};
ghost use Rattle.compare_expansions.specs.Line.{line_of};

use crate::line::Fault;
use expander::expand;
use reader::read;
use supplier::compare;
use words::{FUEL, ITEM, SLOT};

// A recipe's items are expanded, with the name table of the same reading, and the text is held against the term.
fn held(
    items: &[u32],
    names: &[u8],
    text: &[u8],
    work: &mut [u32],
    core: &mut [u32],
    text_items: &mut [u32],
    text_names: &mut [u8],
) -> Result<bool, Fault>
    ensures { line_of result ≡ printed_for items.now names.now fuel_most (length work.old) (length core.old) (read_elements 1 text.now (length text_items.old) (length text_names.old)) }
{
    match expand(items, FUEL, work, core) {
        Ok(expanded) => {
            let end = expanded.length as usize;
            match compare(items, names, &core[..end], text, text_items, text_names) {
                Ok(same) => Ok(same),
                Err(ground) => Err(Fault::Text(ground)),
            }
        }
        Err(refused) => Err(Fault::Recipe(refused.ground)),
    }
}

// The recipe is read and expanded first: where it is refused, the text is not read.
pub fn compared(
    recipe: &[u8],
    text: &[u8],
    items: &mut [u32],
    names: &mut [u8],
    work: &mut [u32],
    core: &mut [u32],
    text_items: &mut [u32],
    text_names: &mut [u8],
) -> Result<bool, Fault>
    ensures { line_of result ≡ output_of fuel_most (length work.old) (length core.old) (read recipe.now (length items.old) (length names.old)) (read_elements 1 text.now (length text_items.old) (length text_names.old)) }
{
    match read(recipe, items, names) {
        Ok(counts) => {
            let words = ITEM * counts.items;
            let bytes = SLOT * counts.names;
            held(
                &items[..words],
                &names[..bytes],
                text,
                work,
                core,
                text_items,
                text_names,
            )
        }
        Err(ground) => Err(Fault::Recipe(ground)),
    }
}
