// A jam: a link that more cells must cross before a slot than there are slots before it.
#![tactic(auto)]

use ring::{Node, Slot};

// How many cells, which link, and before which slot.
#[derive(Clone, Copy)]
pub struct Jam {
    pub cells: u16,
    pub link: Node,
    pub before: Slot,
}
