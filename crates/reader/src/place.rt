// Where reading stands, and what a token that is allowed does: items are placed, or grounds 5 and 6 turn the text back.
ghost use Rattle.std.specs.Prelude.{◌≡◌, ◌&&◌, cond, ◌+◌, ◌*◌, ◌-◌, ◌≤◌, eqb, length};
ghost use Rattle.words.specs.Limits.{items_most};
ghost use Rattle.reader.specs.Code.Placed.{put3, Sound, begun_at, TokenPut, ListOpened, ListClosed};
ghost use Rattle.reader.specs.Code.Moved.{counts_of};

use crate::Counts;
use datum::kinds;
use words::ITEM;
use words::ground::Ground;

// The next item, the pair whose tail is open, open lists, e, elements that the text lacks, names.
#[derive(Clone, Copy)]
pub struct Place {
    pub next: usize,
    pub pair: usize,
    pub depth: usize,
    pub count: usize,
    pub missing: usize,
    pub known: usize,
}

impl Place {
    // No list is open and no element is missing.
    pub fn is_complete(self) -> bool
        ensures { result ≡ (eqb self.depth 0 && eqb self.missing 0) }
    {
        self.depth == 0 && self.missing == 0
    }

    // Grounds 5 and 6 at a token that begins an element, with the names and open lists that it makes.
    #[tactic(auto, unfolding(crate::specs::Code::Placed::begun_at))]
    pub fn begins(self, known: usize, depth: usize) -> Result<(), Ground>
        ensures { result ≡ begun_at self known depth }
    {
        if self.is_complete() {
            return Err(Ground::Unbalanced);
        }
        if words::ELEMENTS <= self.count {
            return Err(Ground::TooMany);
        }
        if words::NAMES < known || words::OPEN_LISTS < depth {
            return Err(Ground::TooMany);
        }
        Ok(())
    }

    // The counts at the end of the text: ground 5 where a list is open or an element missing.
    #[tactic(auto, unfolding(crate::specs::Code::Moved::counts_of))]
    pub fn counts(self) -> Result<Counts, Ground>
        requires { self.next ≤ items_most }
        ensures { result ≡ counts_of self }
    {
        if self.is_complete() {
            Ok(Counts {
                items: self.next + 1,
                names: self.known,
            })
        } else {
            Err(Ground::Unbalanced)
        }
    }

    // How many elements the text lacks once one more has begun.
    fn lacking(self) -> usize
        ensures { result ≡ cond (eqb self.depth 0) (self.missing - 1) self.missing }
    {
        if self.depth == 0 {
            self.missing.saturating_sub(1)
        } else {
            self.missing
        }
    }
}

fn put_item(items: &mut [u32], item: usize, kind: u32, first: u32, second: u32)
    requires { 3 * item + 3 ≤ length items.old }
    ensures { items.new ≡ put3 items.old (3 * item) kind first second }
{
    let at = ITEM * item;
    items[at] = kind;
    items[at + 1] = first;
    items[at + 2] = second;
}

// A pair, and its head, which is one item.
fn put_element(items: &mut [u32], item: usize, kind: u32, first: u32, second: u32)
    requires { (3 * item + 6 ≤ length items.old) × (item ≤ items_most) }
    ensures { items.new ≡ put3 (put3 items.old (3 * item) 4 (item + 1) (item + 2)) (3 * (item + 1)) kind first second }
{
    put_item(
        items,
        item,
        kinds::PAIR,
        (item + 1) as u32,
        (item + 2) as u32,
    );
    put_item(items, item + 1, kind, first, second);
}

// An element that is one token.
pub fn put_token(
    items: &mut [u32],
    place: Place,
    kind: u32,
    first: u32,
    second: u32,
    known: usize,
) -> Result<Place, Ground>
    requires { Sound place (length items.old) }
    ensures { TokenPut place kind first second known items.old items.new result }
{
    place.begins(known, place.depth)?;
    put_element(items, place.next, kind, first, second);
    Ok(Place {
        next: place.next + 2,
        count: place.count + 1,
        missing: place.lacking(),
        known,
        ..place
    })
}

// A list begins: its pair's tail is open, and holds the pair of the list around it.
pub fn open_list(items: &mut [u32], place: Place) -> Result<Place, Ground>
    requires { Sound place (length items.old) }
    ensures { ListOpened place items.old items.new result }
{
    place.begins(place.known, place.depth + 1)?;
    let next = place.next;
    put_item(
        items,
        next,
        kinds::PAIR,
        (next + 1) as u32,
        place.pair as u32,
    );
    Ok(Place {
        next: next + 1,
        pair: next,
        depth: place.depth + 1,
        count: place.count + 1,
        missing: place.lacking(),
        ..place
    })
}

// A list ends: the next item is the empty list, and the tail of its pair follows that.
pub fn close_list(items: &mut [u32], place: Place) -> Result<Place, Ground>
    requires { Sound place (length items.old) }
    ensures { ListClosed place items.old items.new result }
{
    if place.depth == 0 {
        return Err(Ground::Unbalanced);
    }
    let tail = ITEM * place.pair + 2;
    let around = items[tail] as usize;
    items[tail] = (place.next + 1) as u32;
    Ok(Place {
        next: place.next + 1,
        pair: around,
        depth: place.depth - 1,
        ..place
    })
}
