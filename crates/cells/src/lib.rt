// Rows of several cells. Before a run the rows are laid out over their cells; a slot that names cells is told in rows,
// a row arrives with its last cell, and the looks are counted from what a run left.
#![tactic(auto)]

ghost use Rattle.std.specs.Prelude.{◌≡◌, ℕ, ◌≤◌, ◌<◌, ◌^◌, cond, eqb, length, replicate};
ghost use Rattle.lists.specs.Lists.{build};
ghost use Rattle.table.specs.Table.{lengths, cells_in};
ghost use Rattle.slack.specs.Slack.{owners_in};
ghost use Rattle.cells.specs.Cells.{owner_of, told_by, of_last_cells};
ghost use Rattle.cells.specs.Steps.{no_cell, cell_of, Open, Laid, looks_by, AtMost, AboveZero};

use ring::{Node, Slot};
use slack::Cell;
use table::Row;

// A place for each cell that a table may have.
pub fn no_cells() -> [Cell; 1024]
    ensures { result ≡ replicate 1024 no_cell }
{
    [Cell {
        dst: Node(0),
        due: Slot(0),
        row: 0,
        place: 0,
    }; 1024]
}

// Writes the cells of one row: the last is due with its row, and each one before it a slot earlier, never before
// instant 0.
fn lay_row(row: Row, number: u16, cells: &mut [Cell])
    requires { length cells.old ≡ row.len }
    ensures { cells.new ≡ build row.len (cell_of row number) }
{
    for (j, cell) in cells.iter_mut().enumerate() {
        let behind = row.len - (j as u16 + 1);
        *cell = Cell {
            dst: Node(row.dst),
            due: Slot(row.due.saturating_sub(behind)),
            row: number,
            place: j as u16 + 1,
        };
    }
}

// Lays the rows out over their cells, row by row: where each cell goes, when it is due, its row's number, and the links
// that it has to go.
pub fn lay_out(rows: &[Row], links: &[u16], cells: &mut [Cell], left: &mut [u16])
    requires { Open rows.now links.now cells.old left.old }
    ensures { Laid rows.now links.now cells.new left.new }
{
    let mut first = 0usize;
    for (i, row) in rows.iter().enumerate() {
        let next = first + row.len as usize;
        lay_row(*row, (i + 1) as u16, &mut cells[first..next]);
        left[first..next].fill(links[i]);
        first = next;
    }
}

// The row of the cell with that number, and 0 for 0, which is idle in every plan that is lent.
#[tactic(auto, using(crate::proofs::Telling::numbered), unfolding(crate::specs::Cells::owner_of))]
pub fn row_of(cells: &[Cell], cell: u16) -> u16
    requires { cell ≤ length cells.now }
    ensures { result ≡ owner_of (owners_in cells.now) cell }
{
    if cell == 0 {
        return 0;
    }
    cells[cell as usize - 1].row
}

// Tells a plan of cells, or a part of one, in rows.
pub fn tell_in_rows(cells: &[Cell], plan: &mut [u16])
    requires { AtMost (length cells.now) plan.old }
    ensures { plan.new ≡ told_by (owners_in cells.now) plan.old }
{
    for entry in plan.iter_mut() {
        *entry = row_of(cells, *entry);
    }
}

// Gathers when each row is there: with its last cell.
pub fn gather_last(rows: &[Row], stamps: &[u16], arrivals: &mut [u16])
    requires { AboveZero (lengths rows.now) × (length stamps.now ≡ cells_in rows.now)
        × (length arrivals.old ≡ length rows.now) }
    ensures { arrivals.new ≡ of_last_cells (lengths rows.now) stamps.now }
{
    let mut next = 0usize;
    for (i, row) in rows.iter().enumerate() {
        next += row.len as usize;
        arrivals[i] = stamps[next - 1];
    }
}

// How often a cell was looked at that has so many links left and was last stamped so: at all instants if it has any.
fn looks_at(all: u32, left: u16, stamp: u16) -> u32
    requires { all ≤ 65536 }
    ensures { (result ≡ cond (eqb left 0) stamp all) × (result ≤ 65536) }
{
    if left == 0 {
        return stamp as u32;
    }
    all
}

// The looks of a run that ended at instant t, counted from what it left.
#[tactic(auto, using(lists::proofs::Sums::total_last), unfolding(lists::specs::Lists::total, crate::specs::Steps::looks_by))]
pub fn count_looks(t: Slot, left: &[u16], stamps: &[u16]) -> u32
    requires { (length stamps.now ≡ length left.now) × (length left.now < 2 ^ 16) }
    ensures { result ≡ looks_by t.0 left.now stamps.now }
{
    let all = t.0 as u32 + 1;
    let mut looks = 0u32;
    for (i, links) in left.iter().enumerate() {
        looks += looks_at(all, *links, stamps[i]);
    }
    looks
}
