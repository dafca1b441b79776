// A run of rows of several cells: they are laid out over their cells, the cells are run, and each row arrives with its
// last cell.
#![tactic(auto)]

ghost use Rattle.std.specs.Prelude.{◌≡◌, length};
ghost use Rattle.rows.specs.Steps.{bound_for, Loaded, RanRows};

use cells::{gather_last, lay_out, no_cells};
use lists::zeros;
use run::{Ending, run};
use slack::Cargo;
use table::{Row, count_cells};

// Plans a whole run of rows with at most 1,024 cells in all.
pub fn run_rows(
    nodes: u16,
    rows: &[Row],
    links: &[u16],
    plan: &mut [u16],
    arrivals: &mut [u16],
) -> Ending
    requires { Loaded nodes rows.now links.now plan.old arrivals.old }
    ensures { RanRows (bound_for nodes rows.now links.now) (length plan.old) result plan.new arrivals.new }
{
    let count = count_cells(rows) as usize;
    let mut cells = no_cells();
    let mut left: [u16; 1024] = zeros();
    let mut stamps: [u16; 1024] = zeros();
    let cells = &mut cells[..count];
    let left = &mut left[..count];
    let stamps = &mut stamps[..count];
    lay_out(rows, links, cells, left);
    let ending = run(Cargo { nodes, cells }, left, plan, stamps);
    gather_last(rows, stamps, arrivals);
    ending
}
