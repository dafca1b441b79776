// An edit that nothing is wrong with, stored in the area: the loads of the ways stepped, the row put in or taken out.
#![tactic(auto)]

ghost use Rattle.std.specs.Prelude.{◌≡◌, ℕ, ◌++◌, map, ◌≤◌, ◌<◌, length, drop, replicate};
ghost use Rattle.table.specs.Table.{most_rows, row_numbers};
ghost use Rattle.area.specs.Area.{most_links, row_width, room};
ghost use Rattle.edit_judge.specs.Judge.{Add, Change, Remove};
ghost use Rattle.edit_store.specs.Store.{raised, lowered, edited};
ghost use Rattle.edit_store.specs.Steps.{Steps, Roomy, There, stepped_way, way_stepped, row_put};

use area::{Area, LOADS_BEGIN, ROW_WIDTH, ROWS_BEGIN, row_in};
use table::Row;

// Steps the count of every link of a stretch.
fn step_all<F: Fn(u16) -> u16>(part: &mut [u16], step: &F)
    ghost by: { ℕ → ℕ }
    requires { Steps F.IsAlwaysCallable F.post step.now by }
    ensures { part.new ≡ map by part.old }
{
    for count in part.iter_mut() {
        *count = step(*count);
    }
}

// Steps the counts of the links on a row's way: one stretch of links, or two where it passes node 0.
fn step_way<F: Fn(u16) -> u16>(nodes: u16, row: Row, load: &mut [u16], step: &F)
    ghost by: { ℕ → ℕ }
    requires ready { Steps F.IsAlwaysCallable F.post step.now by }
    requires whole { (nodes ≤ most_links) × (length load.old ≡ most_links) }
    ensures { load.new ≡ stepped_way by nodes row load.old }
{
    let end = nodes as usize;
    let from = (row.src as usize).min(end);
    let to = (row.dst as usize).min(end);
    if row.src < row.dst {
        step_all(&mut load[from..to], step);
    } else {
        step_all(&mut load[from..end], step);
        step_all(&mut load[..to], step);
    }
}

// Steps the loads of the links on a row's way.
fn step_loads<F: Fn(u16) -> u16>(table: &mut Area, nodes: u16, row: Row, step: &F)
    ghost by: { ℕ → ℕ }
    requires ready { Steps F.IsAlwaysCallable F.post step.now by }
    requires few { nodes ≤ most_links }
    ensures { table.new ≡ way_stepped by nodes row table.old }
{
    step_way(nodes, row, &mut table[LOADS_BEGIN..ROWS_BEGIN], step);
}

// Counts the cells of a row in on its way.
fn raise_loads(table: &mut Area, nodes: u16, row: Row)
    requires { nodes ≤ most_links }
    ensures { table.new ≡ way_stepped (raised row.len) nodes row table.old }
{
    step_loads(table, nodes, row, &|count| count.saturating_add(row.len));
}

// Counts the cells of a row out on its way.
fn lower_loads(table: &mut Area, nodes: u16, row: Row)
    requires { nodes ≤ most_links }
    ensures { table.new ≡ way_stepped (lowered row.len) nodes row table.old }
{
    step_loads(table, nodes, row, &|count| count.saturating_sub(row.len));
}

// Writes the numbers of a row.
fn put_numbers(part: &mut [u16], row: Row)
    requires { length part.old ≡ row_width }
    ensures { part.new ≡ row_numbers row }
{
    part[0] = row.src;
    part[1] = row.dst;
    part[2] = row.len;
    part[3] = row.due;
}

// Puts a row at a place of the table, counted from 0.
fn put_row(table: &mut Area, i: usize, row: Row)
    requires { i < most_rows }
    ensures { table.new ≡ row_put i row table.old }
{
    let at = ROWS_BEGIN + ROW_WIDTH * i;
    put_numbers(&mut table[at..at + ROW_WIDTH], row);
}

// Takes the first row out of a stretch of rows, moves the later ones down one number, and leaves zeros behind them.
fn close_gap(part: &mut [u16])
    requires { row_width ≤ length part.old }
    ensures { part.new ≡ drop row_width part.old ++ replicate row_width 0 }
{
    let last = part.len() - ROW_WIDTH;
    part.copy_within(ROW_WIDTH.., 0);
    part[last..].fill(0);
}

// Adds a row where there is room for it.
pub fn add_row(table: &mut Area, row: Row)
    requires { Roomy table.old }
    ensures { table.new ≡ edited table.old (Add row) }
{
    let nodes = table[0];
    let rows = table[1];
    raise_loads(table, nodes, row);
    put_row(table, rows as usize, row);
    table[1] = rows + 1;
}

// Changes a row that is there.
pub fn change_row(table: &mut Area, number: u16, row: Row)
    requires { There table.old number }
    ensures { table.new ≡ edited table.old (Change number row) }
{
    let nodes = table[0];
    let i = number as usize - 1;
    let old = row_in(table, i);
    lower_loads(table, nodes, old);
    raise_loads(table, nodes, row);
    put_row(table, i, row);
}

// Removes a row that is there.
pub fn remove_row(table: &mut Area, number: u16)
    requires { There table.old number }
    ensures { table.new ≡ edited table.old (Remove number) }
{
    let nodes = table[0];
    let rows = table[1];
    let i = number as usize - 1;
    let at = ROWS_BEGIN + ROW_WIDTH * i;
    let end = ROWS_BEGIN + ROW_WIDTH * rows as usize;
    let gone = row_in(table, i);
    lower_loads(table, nodes, gone);
    close_gap(&mut table[at..end]);
    table[1] = rows - 1;
}
