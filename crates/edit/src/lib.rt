// Editing a table at the panel: rows added, changed and removed one by one in a lent area that also keeps the load of
// each link.
#![tactic(auto)]

ghost use Rattle.std.specs.Prelude.{◌≡◌};
ghost use Rattle.edit_judge.specs.Judge.{Add, Change, Remove};
ghost use Rattle.edit.specs.Edit.{Opened, Edited, entry_of};

use area::{Area, row_in};
use edit_judge::{add_refusal, change_refusal, number_refusal, size_refusal, verdict};
use edit_store::{add_row, change_row, remove_row};
use table::{Refusal, Row};

// Opens an empty table for so many nodes, whatever the lent area held.
pub fn open(table: &mut Area, nodes: u16) -> Result<(), Refusal>
    ensures { Opened nodes table.old result table.new }
{
    verdict(size_refusal(nodes, 0), 0)?;
    table.fill(0);
    table[0] = nodes;
    Ok(())
}

// Adds a row at the end of an open table.
pub fn add(table: &mut Area, row: Row) -> Result<(), Refusal>
    ensures { Edited table.old (Add row) result table.new }
{
    let rows = table[1];
    let wrong = add_refusal(table[0], rows, row);
    verdict(wrong, rows.saturating_add(1))?;
    add_row(table, row);
    Ok(())
}

// Changes row `number` of an open table.
pub fn change(table: &mut Area, number: u16, row: Row) -> Result<(), Refusal>
    ensures { Edited table.old (Change number row) result table.new }
{
    let wrong = change_refusal(table[0], table[1], number, row);
    verdict(wrong, number)?;
    change_row(table, number, row);
    Ok(())
}

// Removes row `number` of an open table; later rows move down one number.
pub fn remove(table: &mut Area, number: u16) -> Result<(), Refusal>
    ensures { Edited table.old (Remove number) result table.new }
{
    let wrong = number_refusal(table[0], table[1], number);
    verdict(wrong, number)?;
    remove_row(table, number);
    Ok(())
}

// Row `number`, or 12 where it isn't there.
pub fn row_of(table: &Area, number: u16) -> Result<Row, Refusal>
    ensures { result ≡ entry_of table.now number }
{
    let wrong = number_refusal(table[0], table[1], number);
    verdict(wrong, number)?;
    Ok(row_in(table, number as usize - 1))
}
