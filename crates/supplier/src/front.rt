// Our node at the beginning of words, as numbers, and what is found where it is the one that the text wants.
ghost use Rattle.std.specs.Prelude.{◌≡◌, ◌≤◌};
ghost use Rattle.datum.specs.Constant.{Constant};
ghost use Rattle.core_term.specs.Node.{node_at};
ghost use Rattle.core_term.specs.Code.Opened.{node_in};
ghost use Rattle.core_term.specs.declared.nodes.Node.TheVariants.{Lambda};
ghost use Rattle.supplier.specs.Walk.{ours_of, takes, constant_here};
ghost use Rattle.supplier.specs.Told.{sort_number, Fronted, Told};

use core_term::nodes::{Node, opened};

// What keeps a text from being our term: something else stands there, a name is open (22), something is outside the grammar (21); the later
// goes before the earlier.
#[derive(Clone, Copy, PartialEq, Eq, PartialOrd, Ord)]
pub enum Difference {
    Other,
    Open,
    Outside,
}

// How many words of ours are taken, where the text is the same so far.
pub type Walked = Result<usize, Difference>;

// Sorts of nodes, and none.
#[derive(Clone, Copy, PartialEq, Eq)]
pub enum Sort {
    Constant,
    Variable,
    Operation,
    Name,
    List,
    If,
    Lambda,
    Application,
    None,
}

// Of a constant its kind and two words, of a lambda how many variables and the first, of others their number; its own words. No enum with
// fields, since `takes` compares sort and number alike for each sort.
#[derive(Clone, Copy)]
pub struct Front {
    pub sort: Sort,
    pub first: u32,
    pub second: u32,
    pub third: u32,
    pub size: usize,
}

fn of(sort: Sort, first: u32, second: u32, third: u32, size: usize) -> Front
    ensures { result ≡ record { sort = sort; first = first; second = second; third = third; size = size } }
{
    Front {
        sort: sort,
        first: first,
        second: second,
        third: third,
        size: size,
    }
}

// A lambda, by the names that are there.
fn lambda(words: &[u32], first: u32, count: u32) -> Front
    requires { node_in words.now (Lambda first count) ≡ node_at words.now }
    ensures { Fronted words.now result }
{
    let names = words.len() - 3;
    if (count as usize) < names {
        return of(Sort::Lambda, count, first, 0, count as usize + 3);
    }
    of(Sort::Lambda, names as u32, first, 0, words.len())
}

pub fn own(words: &[u32]) -> Front
    ensures { Fronted words.now result }
{
    let Some(node) = opened(words) else {
        return of(Sort::None, 0, 0, 0, words.len());
    };
    match node {
        Node::Variable(n) => of(Sort::Variable, n, 0, 0, 2),
        Node::Operation(n) => of(Sort::Operation, n, 0, 0, 2),
        Node::Integer(w) => of(Sort::Constant, 1, w, 0, 2),
        Node::Boolean(w) => of(Sort::Constant, 2, w, 0, 2),
        Node::Decimal(w, places) => of(Sort::Constant, 5, w, places, 3),
        Node::Name(n) => of(Sort::Name, n, 0, 0, 2),
        Node::List(n) => of(Sort::List, n, 0, 0, 2),
        Node::If => of(Sort::If, 0, 0, 0, 1),
        Node::Lambda(first, count) => lambda(words, first, count),
        Node::Application(n) => of(Sort::Application, n, 0, 0, 2),
    }
}

// A node of this sort and number.
pub fn takes(words: &[u32], sort: Sort, number: usize) -> Walked
    ensures { Told words.now (takes (sort_number sort) number (ours_of (node_at words.now))) result }
{
    let node = own(words);
    if node.sort != sort {
        return Err(Difference::Other);
    }
    if node.first as usize != number {
        return Err(Difference::Other);
    }
    Ok(node.size)
}

// A constant, by its kind and two words.
pub fn constant(words: &[u32], kind: u32, first: usize, second: usize) -> Walked
    ensures { Told words.now (constant_here (record { kind = kind; first = first; second = second }) (ours_of (node_at words.now))) result }
{
    let node = own(words);
    if node.sort != Sort::Constant {
        return Err(Difference::Other);
    }
    if node.first != kind {
        return Err(Difference::Other);
    }
    if node.second as usize != first {
        return Err(Difference::Other);
    }
    if node.third as usize != second {
        return Err(Difference::Other);
    }
    Ok(node.size)
}
