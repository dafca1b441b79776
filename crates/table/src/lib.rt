// A table: its rows, and what is wrong with them.
#![tactic(auto)]

ghost use Rattle.std.specs.Prelude.{◌≡◌, ◌≤◌, length};
ghost use Rattle.table.specs.Table.{most_rows, refuse, row_refusal, judge_rows, judge_all, judge};
ghost use Rattle.table.specs.Table.{cells_in, last_due, distances};
ghost use Rattle.table.specs.Steps.{Measuring};

use ring::{Node, Slot, links_between};

// One message: where it starts, where it goes, how many cells it has, and the instant by which they must be there.
#[repr(C)]
#[derive(Clone, Copy, Default)]
pub struct Row {
    pub src: u16,
    pub dst: u16,
    pub len: u16,
    pub due: u16,
}

// Why a table is turned away: the number of document 01, the row it is about and the slot. The number stays a number:
// a panel and its catalogues go by it, and find the words.
#[derive(Clone, Copy)]
pub struct Refusal {
    pub number: u16,
    pub row: u16,
    pub slot: Slot,
}

impl Refusal {
    // A refusal that is about a row, and names no slot.
    pub fn of_row(number: u16, row: u16) -> Refusal
        ensures { result ≡ refuse number row 0 }
    {
        Refusal {
            number,
            row,
            slot: Slot(0),
        }
    }

    // A refusal that names neither row nor slot.
    pub fn of_table(number: u16) -> Refusal
        ensures { result ≡ refuse number 0 0 }
    {
        Refusal::of_row(number, 0)
    }
}

// What is wrong with one row, if something is: the number of its refusal.
#[tactic(auto, using(std::proofs::lemmas::Bool::Decides::nat_tests), unfolding(crate::specs::Table::row_refusal))]
pub fn row_refusal(nodes: u16, r: Row) -> Result<(), u16>
    ensures { result ≡ row_refusal nodes r }
{
    if nodes <= r.src {
        return Err(3);
    }
    if nodes <= r.dst {
        return Err(4);
    }
    if r.len == 0 || 64 < r.len {
        return Err(10);
    }
    if r.due == 0 || 1024 < r.due {
        return Err(6);
    }
    Ok(())
}

// The refusal of the first bad row, if there is one.
pub fn judge_rows(nodes: u16, rows: &[Row]) -> Result<(), Refusal>
    requires { length rows.now ≤ most_rows }
    ensures { result ≡ judge_rows nodes rows.now 0 }
{
    for (i, row) in rows.iter().enumerate() {
        if let Err(number) = row_refusal(nodes, *row) {
            return Err(Refusal::of_row(number, (i + 1) as u16));
        }
    }
    Ok(())
}

// How many cells the rows have in all.
pub fn count_cells(rows: &[Row]) -> u32
    requires { length rows.now ≤ most_rows }
    ensures { result ≡ cells_in rows.now }
{
    rows.iter().map(|row| row.len as u32).sum()
}

// The largest due slot, 0 where there is no row.
pub fn last_due(rows: &[Row]) -> u16
    ensures { result ≡ last_due rows.now }
{
    let mut last = 0u16;
    for row in rows {
        last = last.max(row.due);
    }
    last
}

// The verdict on the rows: that of the first bad row, and where there is none that on their cells.
#[tactic(auto, using(std::proofs::lemmas::Bool::Decides::nat_tests), unfolding(crate::specs::Table::judge_all, crate::specs::Table::after_rows))]
pub fn judge_all(nodes: u16, rows: &[Row]) -> Result<(), Refusal>
    requires { length rows.now ≤ most_rows }
    ensures { result ≡ judge_all nodes rows.now }
{
    judge_rows(nodes, rows)?;
    if 1024 < count_cells(rows) {
        return Err(Refusal::of_table(11));
    }
    Ok(())
}

// Judges a table: the nodes, the number of rows, the rows in order, and their cells.
#[tactic(auto, using(std::proofs::lemmas::Bool::Decides::nat_tests), unfolding(crate::specs::Table::judge))]
pub fn judge(nodes: u16, rows: &[Row]) -> Result<(), Refusal>
    ensures { result ≡ judge nodes rows.now }
{
    if nodes < 2 || 32 < nodes {
        return Err(Refusal::of_table(1));
    }
    if 512 < rows.len() {
        return Err(Refusal::of_table(2));
    }
    judge_all(nodes, rows)
}

// Writes down how many links each row has to go.
pub fn measure(nodes: u16, rows: &[Row], left: &mut [u16])
    requires { Measuring nodes rows.now left.old }
    ensures { left.new ≡ distances nodes rows.now }
{
    for (i, row) in rows.iter().enumerate() {
        let links = links_between(nodes, Node(row.src), Node(row.dst));
        left[i] = links.0;
    }
}
