// One slot of the rule: the figure of each row, what each link carries, whose figure is corrected, and who moves.
#![tactic(auto)]

ghost use Rattle.std.specs.Prelude.{◌≡◌, suc, ◌<◌, ◌^◌, length};
ghost use Rattle.slack.specs.Slack.{dsts_in, traffic_of, OnRing, any_under_way};
ghost use Rattle.slack.specs.Figure.{turn_of, figure_of, figures_of};
ghost use Rattle.slot.specs.Steps.{board_of, Placed, seen, Looking, turned, Turning};
ghost use Rattle.slot.specs.Steps.{less, stamped, Sending, Slotted, SlotPlannedBy};

use lists::clear;
use ring::{Links, Node, Slot, node_at};
use slack::{Cargo, Cell};

// Whether some row has links to go.
pub fn any_under_way(left: &[u16]) -> bool
    ensures { result ≡ any_under_way left.now }
{
    left.iter().any(|links| 0 < *links)
}

// N for a row that is beyond its destination, with node 0 still ahead of it, and else 0.
#[tactic(auto, using(std::proofs::lemmas::Bool::Decides::nat_tests), unfolding(slack::specs::Figure::turn_of))]
fn turn_of(nodes: u16, dst: Node, left: Links) -> u16
    ensures { result ≡ turn_of nodes dst.0 left.0 }
{
    if dst.0 < left.0 { nodes } else { 0 }
}

// The figure of a row: its due slot less its destination, less N while it is beyond it.
fn figure_of(nodes: u16, cell: Cell, left: Links) -> i32
    ensures { result ≡ figure_of nodes cell.dst.0 cell.due.0 left.0 }
{
    let turn = turn_of(nodes, cell.dst, left);
    (cell.due.0 as i32) - (cell.dst.0 as i32) - (turn as i32)
}

// Writes down the figure of each row.
pub fn write_figures(cargo: Cargo, left: &[u16], figure: &mut [i32])
    requires { OnRing (traffic_of cargo) left.now × (length figure.old ≡ length left.now) }
    ensures { figure.new ≡ figures_of (traffic_of cargo.entry) left.now }
{
    for (i, cell) in cargo.cells.iter().enumerate() {
        figure[i] = figure_of(cargo.nodes, *cell, Links(left[i]));
    }
}

// Looks at row i: where it is under way, its node sends it unless the row that the node would send so far has no
// higher figure.
fn look(cargo: Cargo, left: &[u16], figure: &[i32], i: usize, slot: &mut [u16])
    requires { Looking (board_of cargo left.now figure.now) i slot.old }
    ensures { slot.new ≡ seen (board_of cargo.entry left.now figure.now) (suc i) }
{
    let to_go = left[i];
    if to_go == 0 {
        return;
    }
    let at = node_at(cargo.nodes, cargo.cells[i].dst, Links(to_go));
    let p = at.0 as usize;
    let best = slot[p];
    if best == 0 {
        slot[p] = (i + 1) as u16;
        return;
    }
    let b = (best - 1) as usize;
    if figure[i] < figure[b] {
        slot[p] = (i + 1) as u16;
    }
}

// Says what each link carries: its node's row of lowest figure. No instant counts here, since the figures stand still.
pub fn choose(cargo: Cargo, left: &[u16], figure: &[i32], slot: &mut [u16])
    requires { Placed (board_of cargo left.now figure.now)
        × (length left.now < 2 ^ 16) × (length slot.old ≡ cargo.nodes) }
    ensures { slot.new ≡ seen (board_of cargo.entry left.now figure.now) (length left.now) }
{
    clear(slot);
    for i in 0..left.len() {
        look(cargo, left, figure, i, slot);
    }
}

// Corrects the figure of the row that the last link carries: it passes node 0.
fn pass_node_0(nodes: u16, slot: &[u16], figure: &mut [i32])
    requires { Turning nodes slot.now figure.old }
    ensures { figure.new ≡ turned nodes slot.now figure.old }
{
    let row = slot[nodes as usize - 1];
    if row == 0 {
        return;
    }
    let i = (row - 1) as usize;
    figure[i] += nodes as i32;
}

// Moves the rows that a slot names one link on, and stamps each with the instant at which the slot ends.
pub fn send(t: Slot, slot: &[u16], left: &mut [u16], arrivals: &mut [u16])
    requires { Sending slot.now left.old arrivals.old × (suc t.0 < 2 ^ 16) }
    ensures { (left.new ≡ less slot.now left.old)
        × (arrivals.new ≡ stamped slot.now (suc t.0) arrivals.old) }
{
    let end = t.0 + 1;
    for row in slot {
        if 0 < *row {
            let i = (*row - 1) as usize;
            left[i] -= 1;
            arrivals[i] = end;
        }
    }
}

// Plans slot t: says what each link carries, and moves and stamps the rows that are sent. Each list is lent by itself,
// since its three steps change others of them.
pub fn plan_slot(
    cargo: Cargo,
    t: Slot,
    left: &mut [u16],
    figure: &mut [i32],
    slot: &mut [u16],
    arrivals: &mut [u16],
)
    requires { Slotted cargo.nodes (dsts_in cargo.cells.now) t.0
        left.old figure.old slot.old arrivals.old }
    ensures { SlotPlannedBy cargo.entry.nodes (dsts_in cargo.entry.cells.now) t.0
        left.old figure.old arrivals.old
        slot.new left.new figure.new arrivals.new }
{
    choose(cargo, left, figure, slot);
    pass_node_0(cargo.nodes, slot, figure);
    send(t, slot, left, arrivals);
}
