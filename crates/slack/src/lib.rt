// The rule of least slack: what it says stands in specs/; in code, the slack of one row, and where a run ended.
#![tactic(auto)]

ghost use Rattle.std.specs.Prelude.{◌≡◌, ◌&&◌, ltb, pos};
ghost use Rattle.std.specs.Int.Signed.{lt_z};
ghost use Rattle.slack.specs.Slack.{slack_of};

use ring::{Links, Node, Slot};

// One cell of a run: where it goes, when it is due there, the number of its row, and which of the row's cells it is. It has
// eight bytes, so that a place in a list of cells is found by one scaled index; with six each slot of a run took longer.
#[derive(Clone, Copy)]
pub struct Cell {
    pub dst: Node,
    pub due: Slot,
    pub row: u16,
    pub place: u16,
}

// The cells of a run, and the number of nodes of their ring.
#[derive(Clone, Copy)]
pub struct Cargo<'a> {
    pub nodes: u16,
    pub cells: &'a [Cell],
}

// Where a run ended: the late row's number, 0 where all rows are delivered, and the instant. Rows count from 1, and 0
// names none in refusals, in plans and in the theorems on `stop_of`.
#[derive(Clone, Copy)]
pub struct Stop {
    pub row: u16,
    pub slot: Slot,
}

// The slack of a row: below zero where it can't be in time any more.
pub fn slack(due: Slot, now: Slot, left: Links) -> i32
    ensures { result ≡ slack_of due.0 now.0 left.0 }
{
    (due.0 as i32) - (now.0 as i32) - (left.0 as i32)
}

// Whether a row is under way and its slack is below zero.
pub fn is_late(due: Slot, now: Slot, left: Links) -> bool
    ensures { result ≡ (ltb 0 left.0 && lt_z (slack_of due.0 now.0 left.0) (pos 0)) }
{
    if left.0 == 0 {
        return false;
    }
    slack(due, now, left) < 0
}
