// What is wrong with an edit of a table: the first refusal that holds, by the sizes, the row number and the row given.
#![tactic(auto)]

ghost use Rattle.std.specs.Prelude.{◌≡◌};
ghost use Rattle.table.specs.Table.{refuse};
ghost use Rattle.edit_judge.specs.Judge.{Add, Change, Remove, size_refusal, refusal_of, row_named, verdict_by};

use area::{MOST_LINKS, MOST_ROWS};
use table::{Refusal, Row, row_refusal};

// The most nodes, as a number of an area: as many as links.
const NODES: u16 = MOST_LINKS as u16;

// The most rows, as a number of an area.
const ROWS: u16 = MOST_ROWS as u16;

// What is wrong with the size of a table: 1 for its nodes, 2 for more than 512 rows.
#[tactic(auto, using(std::proofs::lemmas::Bool::Decides::nat_tests), unfolding(crate::specs::Judge::size_refusal))]
pub fn size_refusal(nodes: u16, rows: u16) -> Result<(), u16>
    ensures { result ≡ size_refusal nodes rows }
{
    if nodes < 2 || NODES < nodes {
        return Err(1);
    }
    if ROWS < rows {
        return Err(2);
    }
    Ok(())
}

// What is wrong with asking for a row of a table: its size, then 12 for a number that isn't there.
#[tactic(auto, using(std::proofs::lemmas::Bool::Decides::nat_tests), unfolding(crate::specs::Judge::refusal_of, crate::specs::Judge::number_refusal, crate::specs::Judge::first_of))]
pub fn number_refusal(nodes: u16, rows: u16, number: u16) -> Result<(), u16>
    ensures { result ≡ refusal_of nodes rows (Remove number) }
{
    size_refusal(nodes, rows)?;
    if number == 0 || rows < number {
        return Err(12);
    }
    Ok(())
}

// What is wrong with adding a row: the table's size, then 2 at 512 rows, then the row.
#[tactic(auto, using(std::proofs::lemmas::Bool::Decides::nat_tests), unfolding(crate::specs::Judge::refusal_of, crate::specs::Judge::first_of))]
pub fn add_refusal(nodes: u16, rows: u16, row: Row) -> Result<(), u16>
    ensures { result ≡ refusal_of nodes rows (Add row) }
{
    size_refusal(nodes, rows)?;
    if rows == ROWS {
        return Err(2);
    }
    row_refusal(nodes, row)
}

// What is wrong with changing a row: what is wrong with asking for it, then the new row.
#[tactic(auto, unfolding(crate::specs::Judge::refusal_of, crate::specs::Judge::first_of))]
pub fn change_refusal(nodes: u16, rows: u16, number: u16, row: Row) -> Result<(), u16>
    ensures { result ≡ refusal_of nodes rows (Change number row) }
{
    number_refusal(nodes, rows, number)?;
    row_refusal(nodes, row)
}

// A refusal by number and the row it is about: 1 and 2 are about no row.
#[tactic(auto, using(std::proofs::lemmas::Bool::Decides::nat_tests), unfolding(crate::specs::Judge::row_named))]
pub fn refusal(number: u16, row: u16) -> Refusal
    ensures { result ≡ refuse number (row_named number row) 0 }
{
    if number < 3 {
        return Refusal::of_table(number);
    }
    Refusal::of_row(number, row)
}

// The verdict on an edit, by what is wrong with it and the row it is about.
#[tactic(auto, unfolding(crate::specs::Judge::answer_by))]
pub fn verdict(wrong: Result<(), u16>, row: u16) -> Result<(), Refusal>
    ensures { result ≡ verdict_by wrong row }
{
    wrong.map_err(|number| refusal(number, row))
}
