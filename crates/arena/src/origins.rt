// A name's origin in one word: whether it has stood in a step's result, its number, and the item that it stems from.

ghost use Rattle.std.specs.Prelude.{◌≡◌, ◌<◌};
ghost use Rattle.words.specs.Limits.{names_most};
ghost use Rattle.recipe.specs.Name.{plain_name, produce_name};
ghost use Rattle.arena.specs.Arena.{origin_name};
ghost use Rattle.arena.specs.Origins.{item_limit};

const NAMES: u32 = words::NAMES as u32;

// The origin of the name that an item holds.
pub fn of_item(number: u32, item: u32) -> u32
    requires { (number < names_most) × (item < item_limit) }
    ensures { origin_name result ≡ plain_name number item }
{
    2 * (number + NAMES * item)
}

// The same, of a name in a step's result.
pub fn produced(origin: u32) -> u32
    ensures { origin_name result ≡ produce_name (origin_name origin) }
{
    origin / 2 * 2 + 1
}

pub fn number(origin: u32) -> u32
    ensures { result ≡ (origin_name origin).number }
{
    origin / 2 % NAMES
}
