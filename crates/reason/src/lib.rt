// Why a table is late: the jam of fewest cells, and how many of each row's cells are in it. Said from the table alone,
// without a run.
#![tactic(auto)]

ghost use Rattle.std.specs.Prelude.{◌≡◌, ◌≤◌, ◌<◌, length};
ghost use Rattle.slack.specs.Slack.{traffic_of, owners_in};
ghost use Rattle.jam.specs.Jam.{must_cross};
ghost use Rattle.table.specs.Table.{WellFormed};
ghost use Rattle.reason.specs.Steps.{Marking, marks_by, JamFound};
ghost use Rattle.reason.specs.Reason.{Reasoned};

use cells::{lay_out, no_cells};
use jam::Jam;
use jam_search::find_jam;
use lists::{clear, zeros};
use ring::links_between;
use slack::{Cargo, Cell};
use table::{Refusal, Row, count_cells, judge, last_due, measure};

// Whether a cell is in a jam: it must cross the jam's link before its slot.
#[tactic(auto, using(std::proofs::lemmas::Bool::Decides::nat_tests), unfolding(jam::specs::Jam::must_cross))]
fn is_in(jam: Jam, nodes: u16, cell: Cell, left: u16) -> bool
    requires { (jam.link.0 < nodes) × (cell.dst.0 < nodes) × (nodes ≤ 32) × (jam.before.0 ≤ 1024) }
    ensures { result ≡ must_cross nodes cell.dst.0 cell.due.0 left jam.link.0 jam.before.0 }
{
    let on = links_between(nodes, jam.link, cell.dst);
    on.0 <= left && cell.due.0 < jam.before.0 + on.0
}

// Counts for each row how many of its cells are in a jam.
fn mark(jam: Jam, cargo: Cargo, left: &[u16], members: &mut [u16])
    requires { Marking (traffic_of cargo) (owners_in cargo.cells.now) left.now jam.link.0 jam.before.0
        (length members.old) }
    ensures { members.new ≡ marks_by (traffic_of cargo.entry) (owners_in cargo.entry.cells.now) left.now
        jam.link.0 jam.before.0 (length members.old) (length left.now) }
{
    clear(members);
    for (i, cell) in cargo.cells.iter().enumerate() {
        if is_in(jam, cargo.nodes, *cell, left[i]) {
            let row = cell.row as usize - 1;
            members[row] += 1;
        }
    }
}

// Finds the jam of a well-formed table, if it has one, and counts each row's cells in it.
fn find_in(nodes: u16, rows: &[Row], members: &mut [u16]) -> Option<Jam>
    requires { WellFormed nodes rows.now × (length members.old ≡ length rows.now) }
    ensures { JamFound nodes rows.now result members.new }
{
    let mut room: [u16; 512] = zeros();
    let links = &mut room[..rows.len()];
    measure(nodes, rows, links);
    let count = count_cells(rows) as usize;
    let mut cell_room = no_cells();
    let cells = &mut cell_room[..count];
    let mut left_room: [u16; 1024] = zeros();
    let left = &mut left_room[..count];
    lay_out(rows, links, cells, left);
    let cargo = Cargo { nodes, cells };
    let Some(jam) = find_jam(cargo, left, last_due(rows)) else {
        clear(members);
        return None;
    };
    mark(jam, cargo, left, members);
    Some(jam)
}

// Says why a table is late, if it is: how many cells must cross which link before which slot, and of each row, in the
// lent list, how many of its cells are among them.
pub fn why_late(nodes: u16, rows: &[Row], members: &mut [u16]) -> Result<Option<Jam>, Refusal>
    ensures { Reasoned nodes rows.now members.old result members.new }
{
    judge(nodes, rows)?;
    let count = rows.len();
    if members.len() < count {
        return Err(Refusal::of_table(8));
    }
    Ok(find_in(nodes, rows, &mut members[..count]))
}
