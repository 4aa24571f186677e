// The ellipsis of rules among trees in the arena.

ghost use Rattle.std.specs.Prelude.{◌≡◌, ◌&&◌};
ghost use Rattle.recipe.specs.Tree.{tail};
ghost use Rattle.expansion.specs.Rules.{dots_next};
ghost use Rattle.arena.specs.Arena.{name_at, tree_at};
ghost use Rattle.rule_cells.specs.Dots.{dots_at, is_dots, dots_among};

use arena::{cells, lists};
use resolution::names;

// What the ellipsis is: `...`, known by number alone, whatever waits on it; no name, as in an escaped template; or the name that
// the author chose, by its node, known by sameness.
#[derive(Clone, Copy, Debug, PartialEq, Eq)]
pub enum Dots {
    Default,
    Never,
    Chosen(u32),
}

// Whether a name is the ellipsis. All names here lie under one pending wrap.
pub fn is_ellipsis(work: &[u32], dots: Dots, node: u32, w: u32) -> bool
    ensures { result ≡ dots_at work.now dots w (name_at work.now node w) }
{
    match dots {
        Dots::Default => names::number_of(work, node) == names::ELLIPSIS,
        Dots::Never => false,
        Dots::Chosen(chosen) => names::same_names(work, chosen, w, node, w),
    }
}

// Whether a tree is the ellipsis.
fn is_dots(work: &[u32], dots: Dots, node: u32, w: u32) -> bool
    ensures { result ≡ is_dots work.now dots w (tree_at work.now node w) }
{
    if cells::word(work, node, cells::KIND) != cells::NAME {
        return false;
    }
    is_ellipsis(work, dots, node, w)
}

// Whether a list begins with the ellipsis.
pub fn dots_next(work: &[u32], dots: Dots, node: u32, w: u32) -> bool
    ensures { result ≡ dots_next (dots_at work.now dots w) (tree_at work.now node w) }
{
    if cells::word(work, node, cells::KIND) != cells::PAIR {
        return false;
    }
    let first = cells::reference(work, node, cells::HEAD);
    is_dots(work, dots, first, w)
}

// Whether the ellipsis stands among the elements of a list.
fn among(work: &[u32], dots: Dots, list: u32, w: u32) -> bool
    ensures { result ≡ dots_among work.now dots w (tree_at work.now list w) }
{
    let mut node = list;
    while cells::word(work, node, cells::KIND) == cells::PAIR {
        let first = cells::reference(work, node, cells::HEAD);
        if is_dots(work, dots, first, w) {
            return true;
        }
        node = cells::reference(work, node, cells::TAIL);
    }
    false
}

// Whether a rest of a list, where it begins with the ellipsis, has another.
pub fn crowded(work: &[u32], dots: Dots, rest: u32, w: u32, followed: bool) -> bool
    ensures { result ≡ (followed && dots_among work.now dots w (tail (tree_at work.now rest w))) }
{
    if followed {
        let after = lists::rest(work, rest);
        return among(work, dots, after, w);
    }
    false
}
