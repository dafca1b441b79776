// A whole run of cells: instant by instant, until a cell is late or none is under way. What it gives is told in rows.
#![tactic(auto)]

ghost use Rattle.std.specs.Prelude.{◌≡◌, ◌≤◌, length};
ghost use Rattle.slack.specs.Slack.{dsts_in, owners_in, traffic_of};
ghost use Rattle.slack.specs.Figure.{figures_of};
ghost use Rattle.slot.specs.Steps.{Slotted};
ghost use Rattle.cells.specs.Cells.{end_by};
ghost use Rattle.run.specs.Steps.{Ready, SlotTold, Walked, Ran};

use cells::{count_looks, row_of, tell_in_rows};
use lists::clear;
use ring::{Links, Slot};
use slack::{Cargo, Cell, Stop, is_late};
use slot::{any_under_way, plan_slot, write_figures};

// How a run ended: where and with which row, and how many looks it took.
#[derive(Clone, Copy)]
pub struct Ending {
    pub stop: Stop,
    pub looks: u32,
}

// Plans slot t and tells it in rows.
fn plan_slot_in_rows(
    cargo: Cargo,
    t: Slot,
    left: &mut [u16],
    figure: &mut [i32],
    slot: &mut [u16],
    arrivals: &mut [u16],
)
    requires { Slotted cargo.nodes (dsts_in cargo.cells.now) t.0
        left.old figure.old slot.old arrivals.old
        × (length (owners_in cargo.cells.now) ≡ length left.old) }
    ensures { SlotTold (owners_in cargo.entry.cells.now) cargo.entry.nodes (dsts_in cargo.entry.cells.now) t.0
        left.old figure.old arrivals.old
        slot.new left.new figure.new arrivals.new }
{
    plan_slot(cargo, t, left, figure, slot, arrivals);
    tell_in_rows(cargo.cells, slot);
}

// Walks over the instants until no cell is under way, and over the cells at each; it is left by the label at the first
// cell that is late. How many instants come is not known beforehand, so that the outer walk is a `while`.
fn walk(
    cargo: Cargo,
    left: &mut [u16],
    figure: &mut [i32],
    plan: &mut [u16],
    arrivals: &mut [u16],
) -> Stop
    requires { Ready (traffic_of cargo) (owners_in cargo.cells.now) left.old plan.old arrivals.old
        × (figure.old ≡ figures_of (traffic_of cargo) left.old) }
    ensures { Walked (traffic_of cargo.entry)
        (owners_in cargo.entry.cells.now) left.old plan.old arrivals.old
        result left.new figure.new plan.new arrivals.new }
{
    let mut t = 0u16;
    let mut late = 0u16;
    'instants: while any_under_way(left) {
        for (i, cell) in cargo.cells.iter().enumerate() {
            if is_late(cell.due, Slot(t), Links(left[i])) {
                late = (i + 1) as u16;
                break 'instants;
            }
        }
        let first = t as usize * cargo.nodes as usize;
        let next = first + cargo.nodes as usize;
        plan_slot_in_rows(
            cargo,
            Slot(t),
            left,
            figure,
            &mut plan[first..next],
            arrivals,
        );
        t += 1;
    }
    Stop {
        row: late,
        slot: Slot(t),
    }
}

// Where a run of cells ended, told in rows.
#[tactic(auto, unfolding(cells::specs::Cells::end_by))]
fn end_in_rows(cells: &[Cell], stop: Stop) -> Stop
    requires { stop.row ≤ length cells.now }
    ensures { result ≡ end_by (owners_in cells.now) stop }
{
    Stop {
        row: row_of(cells, stop.row),
        slot: stop.slot,
    }
}

// Plans a whole run of at most 1,024 cells, of which any may have nothing to go: the plan and the arrivals where every
// cell is in time, and both areas cleared where one is late.
pub fn run(cargo: Cargo, left: &mut [u16], plan: &mut [u16], arrivals: &mut [u16]) -> Ending
    requires { Ready (traffic_of cargo) (owners_in cargo.cells.now) left.old plan.old arrivals.old
        × (length left.old ≤ 1024) }
    ensures { Ran (traffic_of cargo.entry)
        (owners_in cargo.entry.cells.now) left.old (length plan.old) result
        left.new plan.new arrivals.new }
{
    clear(arrivals); // no slot stamps a cell that has nothing to go
    let count = left.len();
    let mut figure = [0; 1024];
    write_figures(cargo, left, &mut figure[..count]);
    let stop = walk(cargo, left, &mut figure[..count], plan, arrivals);
    let looks = count_looks(stop.slot, left, arrivals);
    let ended = end_in_rows(cargo.cells, stop);
    if stop.row == 0 {
        let idle = stop.slot.0 as usize * cargo.nodes as usize;
        clear(&mut plan[idle..]);
    } else {
        clear(plan);
        clear(arrivals);
    }
    Ending { stop: ended, looks }
}
