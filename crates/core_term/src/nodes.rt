// The nodes of a core term, opened, and their shapes.
ghost use Rattle.std.specs.Prelude.{◌≡◌};
ghost use Rattle.core_term.specs.Node.{node_at};
ghost use Rattle.core_term.specs.Code.Opened.{opened_in, shape_in, ShapeAt};

use crate::read::read;

// A lambda's first variable and their count, its names behind them; a decimal's value and places.
#[derive(Clone, Copy)]
pub enum Node {
    Variable(u32),
    Operation(u32),
    Integer(u32),
    Boolean(u32),
    Decimal(u32, u32),
    Name(u32),
    List(u32),
    If,
    Lambda(u32, u32),
    Application(u32),
}

// The node at the beginning of words, or that they begin with none.
pub fn opened(words: &[u32]) -> Option<Node>
    ensures { opened_in words.now result ≡ node_at words.now }
{
    read(words)
}

// How many words a node has of its own, how many of them, the last, are names of variables, how many terms follow, and
// whether these are data (quoted).
#[derive(Clone, Copy)]
pub struct Shape {
    pub own: usize,
    pub names: usize,
    pub parts: usize,
    pub quoted: bool,
}

// A leaf of two words.
const LEAF: Shape = Shape {
    own: 2,
    names: 0,
    parts: 0,
    quoted: false,
};

pub fn shape_of(node: Node) -> Shape
    ensures { result ≡ shape_in node }
{
    match node {
        Node::Variable(_)
        | Node::Operation(_)
        | Node::Integer(_)
        | Node::Boolean(_)
        | Node::Name(_) => LEAF,
        Node::Decimal(_, _) => Shape { own: 3, ..LEAF },
        Node::List(count) => Shape {
            parts: count as usize,
            quoted: true,
            ..LEAF
        },
        Node::If => Shape {
            own: 1,
            parts: 3,
            ..LEAF
        },
        Node::Lambda(_, count) => {
            let names = count as usize;
            Shape {
                own: 3 + names,
                names,
                parts: 1,
                ..LEAF
            }
        }
        Node::Application(count) => Shape {
            parts: count as usize + 1,
            ..LEAF
        },
    }
}

// The shape of the node at the beginning of words, if they begin with one.
pub fn shape_at(words: &[u32]) -> Option<Shape>
    ensures { ShapeAt words.now result }
{
    let node = read(words)?;
    Some(shape_of(node))
}
