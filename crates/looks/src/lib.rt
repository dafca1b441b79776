// How many looks planning a table may take at most: said in advance, from the table alone.
#![tactic(auto)]

ghost use Rattle.std.specs.Prelude.{◌≡◌, suc, ◌*◌, ◌≤◌, length};
ghost use Rattle.table.specs.Table.{cells_in, last_due};
ghost use Rattle.looks.specs.Looks.{most_looks};

use table::{Row, count_cells, judge, last_due};

// Every cell at every instant from 0 to the largest due slot.
fn all_looks(rows: &[Row]) -> u32
    requires { (length rows.now ≤ 512) × (cells_in rows.now ≤ 1024) }
    ensures { result ≡ cells_in rows.now * suc (last_due rows.now) }
{
    let cells = count_cells(rows);
    let instants = last_due(rows) as u32 + 1;
    cells * instants
}

// The most looks that planning a table can take; 0 for one that is refused before it is planned.
#[tactic(auto, using(planner::proofs::Good::rows_few, planner::proofs::Good::few_cells), unfolding(crate::specs::Looks::most_looks, crate::specs::Looks::if_good))]
pub fn most_looks(nodes: u16, rows: &[Row]) -> u32
    ensures { result ≡ most_looks nodes rows.now }
{
    match judge(nodes, rows) {
        Err(_) => 0,
        Ok(()) => all_looks(rows),
    }
}
