// One constructor for each kind of cell of parsed rules. `cells` says where the words of each stand; those that its kind does not
// use come first and are 0.

ghost use Rattle.std.specs.Prelude.{◌≤◌, ◌∷◌};
ghost use Rattle.expansion.specs.Rules.{variable_p, wildcard_p, variable_t, insert_t};
ghost use Rattle.arena.specs.Arena.{name_at};
ghost use Rattle.arena.specs.Cells.{Room};
ghost use Rattle.rule_cells.specs.Cells.{pattern_at, template_at, rules_at};
ghost use Rattle.rule_cells.specs.Made.{Five, Made, MadeLiteral, MadeConstant, MadePair, MadeEllipsis, MadeList};

use crate::cells;

// Five words at the top; answers the new top, which is the cell's reference. One by one: copied as a slice they would go through memory.
fn put(work: &mut [u32], top: u32, a: u32, b: u32, c: u32, d: u32, tag: u32) -> u32
    requires { Room work.old top 5 }
    ensures { Five a b c d tag work.old work.new top result }
{
    let at = top as usize;
    work[at] = a;
    work[at + 1] = b;
    work[at + 2] = c;
    work[at + 3] = d;
    work[at + 4] = tag;
    top + 5
}

// ---- patterns

// Pattern variable k.
pub fn put_variable(work: &mut [u32], top: u32, k: u32) -> u32
    requires { Room work.old top 5 }
    ensures { Made pattern_at (variable_p k) work.old work.new top result }
{
    put(work, top, 0, 0, 0, k, cells::VARIABLE)
}

// A literal by its node and pending wrap, with the number and the binding's key that its lookup has found.
pub fn put_literal(work: &mut [u32], top: u32, node: u32, w: u32, number: u32, key: u32) -> u32
    requires { (Room work.old top 5) × (node ≤ top) × (w ≤ top) }
    ensures { MadeLiteral node w number key work.old work.new top result }
{
    put(work, top, node, w, number, key, cells::NAME)
}

// The wildcard.
pub fn put_wildcard(work: &mut [u32], top: u32) -> u32
    requires { Room work.old top 5 }
    ensures { Made pattern_at (wildcard_p) work.old work.new top result }
{
    put(work, top, 0, 0, 0, 0, cells::WILDCARD)
}

// ---- templates

// Variable k, under d ellipses in the pattern.
pub fn put_variable_template(work: &mut [u32], top: u32, k: u32, d: u32) -> u32
    requires { Room work.old top 5 }
    ensures { Made template_at (variable_t k d) work.old work.new top result }
{
    put(work, top, 0, 0, k, d, cells::VARIABLE)
}

// An inserted name, by its node and pending wrap.
pub fn put_insert(work: &mut [u32], top: u32, node: u32, w: u32) -> u32
    requires { (Room work.old top 5) × (node ≤ top) × (w ≤ top) }
    ensures { Made template_at (insert_t (name_at work.old node w)) work.old work.new top result }
{
    put(work, top, 0, 0, node, w, cells::NAME)
}

// ---- cells that are read as a pattern or as a template

// A constant, by its item's three words.
pub fn put_constant(work: &mut [u32], top: u32, kind: u32, first: u32, second: u32) -> u32
    requires { Room work.old top 5 }
    ensures { MadeConstant (record { kind = kind; first = first; second = second }) work.old work.new top result }
{
    put(work, top, 0, kind, first, second, cells::CONSTANT)
}

// A pair of two.
fn put_pair(work: &mut [u32], top: u32, head: u32, tail: u32) -> u32
    requires { (Room work.old top 5) × (head ≤ top) × (tail ≤ top) }
    ensures { MadePair head tail work.old work.new top result }
{
    put(work, top, 0, 0, head, tail, cells::PAIR)
}

// An element followed by the ellipsis, then the rest of its list; of a pattern, which has n elements more.
fn put_ellipsis(work: &mut [u32], top: u32, element: u32, n: u32, rest: u32) -> u32
    requires { (Room work.old top 5) × (element ≤ top) × (rest ≤ top) }
    ensures { MadeEllipsis element n rest work.old work.new top result }
{
    put(work, top, 0, n, element, rest, cells::ELLIPSIS)
}

// An element and the rest of its list: an ellipsis where the element is followed by one, a pair otherwise.
pub fn put_list(work: &mut [u32], top: u32, followed: bool, element: u32, n: u32, rest: u32) -> u32
    requires { (Room work.old top 5) × (element ≤ top) × (rest ≤ top) }
    ensures { MadeList followed element n rest work.old work.new top result }
{
    if followed {
        return put_ellipsis(work, top, element, n, rest);
    }
    put_pair(work, top, element, rest)
}

// ---- rules

// A rule and the rules after it.
pub fn put_rule(work: &mut [u32], top: u32, pattern: u32, template: u32, next: u32) -> u32
    requires { (Room work.old top 5) × (pattern ≤ top) × (template ≤ top) × (next ≤ top) }
    ensures { Made rules_at (record { pattern = pattern_at work.old pattern; template = template_at work.old template } ∷ rules_at work.old next) work.old work.new top result }
{
    put(work, top, 0, 0, pattern, template, next)
}
