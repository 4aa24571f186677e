// A list at hand.

// Its node, its head and its tail, and the wrap that waits on it.
#[derive(Clone, Copy)]
pub struct Listed {
    pub node: u32,
    pub head: u32,
    pub tail: u32,
    pub wrap: u32,
}
