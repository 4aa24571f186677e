// The node at the beginning of words, by its code, or none. Nothing else reads codes.
ghost use Rattle.std.specs.Prelude.{◌≡◌, ◌≢◌, ◌≤◌, length, get_or};
ghost use Rattle.core_term.specs.Node.{if_code, lambda_code, decimal_code};
ghost use Rattle.core_term.specs.Code.Opened.{ReadAs};

use crate::codes;
use crate::nodes::Node;
use words::{FORMALS, PLACES};

// A node of two words: its code and a number.
fn numbered(words: &[u32]) -> Option<Node>
    requires some { 1 ≤ length words.now }
    requires other { (get_or words.now 0 0 ≢ if_code) × (get_or words.now 0 0 ≢ lambda_code) × (get_or words.now 0 0 ≢ decimal_code) }
    ensures { ReadAs words.now result }
{
    if words.len() < 2 {
        return None;
    }
    let n = words[1];
    match words[0] {
        codes::VARIABLE => Some(Node::Variable(n)),
        codes::OPERATION => Some(Node::Operation(n)),
        codes::INTEGER => Some(Node::Integer(n)),
        codes::BOOLEAN if n <= 1 => Some(Node::Boolean(n)),
        codes::NAME => Some(Node::Name(n)),
        codes::LIST => Some(Node::List(n)),
        codes::APPLICATION => Some(Node::Application(n)),
        _ => None,
    }
}

fn decimal(words: &[u32]) -> Option<Node>
    requires { get_or words.now 0 0 ≡ decimal_code }
    ensures { ReadAs words.now result }
{
    if words.len() < 3 {
        return None;
    }
    let places = words[2];
    if places < 1 || places > PLACES {
        return None;
    }
    Some(Node::Decimal(words[1], places))
}

fn lambda(words: &[u32]) -> Option<Node>
    requires { get_or words.now 0 0 ≡ lambda_code }
    ensures { ReadAs words.now result }
{
    if words.len() < 3 {
        return None;
    }
    let count = words[2];
    if words.len() - 3 < count as usize {
        return None;
    }
    if count > FORMALS {
        return None;
    }
    Some(Node::Lambda(words[1], count))
}

pub fn read(words: &[u32]) -> Option<Node>
    ensures { ReadAs words.now result }
{
    if words.len() == 0 {
        return None;
    }
    match words[0] {
        codes::IF => Some(Node::If),
        codes::LAMBDA => lambda(words),
        codes::DECIMAL => decimal(words),
        _ => numbered(words),
    }
}
