// The ring: nodes, slots and counts of links as three kinds, and how far and where a row is.
#![tactic(auto)]

ghost use Rattle.std.specs.Prelude.{◌≡◌, ◌+◌, ◌-◌, ◌≤◌, ◌<◌};
ghost use Rattle.ring.specs.Ring.{distance, standing};

// A node's number.
#[derive(Clone, Copy)]
pub struct Node(pub u16);

// A slot's number, and the instant at which that slot begins.
#[derive(Clone, Copy)]
pub struct Slot(pub u16);

// A count of links.
#[derive(Clone, Copy)]
pub struct Links(pub u16);

// The links from one node on to another, a full turn where the two are one.
pub fn links_between(nodes: u16, from: Node, to: Node) -> Links
    requires { (from.0 < nodes) × (to.0 < nodes) }
    ensures { result.0 ≡ distance nodes from.0 to.0 }
{
    if from.0 < to.0 {
        Links(to.0 - from.0)
    } else {
        Links(nodes - from.0 + to.0)
    }
}

// The node at which a row stands that has so many links to go.
pub fn node_at(nodes: u16, to: Node, left: Links) -> Node
    requires { (to.0 < nodes) × (left.0 ≤ nodes) }
    ensures { result.0 ≡ standing nodes to.0 left.0 }
{
    if left.0 <= to.0 {
        Node(to.0 - left.0)
    } else {
        Node(nodes - left.0 + to.0)
    }
}
