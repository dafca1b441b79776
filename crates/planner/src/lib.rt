// The planner: judges a table, plans its run in the lent areas, and answers with the summary or a refusal.
#![tactic(auto)]

ghost use Rattle.std.specs.Prelude.{◌≡◌, length, ◌≤◌};
ghost use Rattle.table.specs.Table.{cells_in, lengths, WellFormed};
ghost use Rattle.planner.specs.Planner.{Planned, quotient, summary_of};
ghost use Rattle.planner.specs.Steps.{crossed, room_for, JustRoom, RunPlanned};

use lists::{greatest, sum, zeros};
use ring::Slot;
use rows::run_rows;
use table::{Refusal, Row, judge, last_due, measure};

// What an accepted table comes to.
#[derive(Clone, Copy)]
pub struct Summary {
    pub last: Slot,
    pub sends: u32,
    pub sum: u32,
    pub mean: f64,
    pub share: f64,
}

// What planning reports: the answer, and how many looks it took.
#[derive(Clone, Copy)]
pub struct Reply {
    pub answer: Result<Summary, Refusal>,
    pub looks: u32,
}

// One division of whole numbers, 0 where there is nothing to divide by.
#[tactic(auto, using(std::proofs::lemmas::Bool::Decides::nat_tests), unfolding(crate::specs::Planner::quotient))]
fn divide(a: u32, b: u32) -> f64
    ensures { result ≡ quotient a b }
{
    if b == 0 {
        return 0.0;
    }
    a as f64 / b as f64
}

// The figures of a run in which every row arrived.
#[tactic(auto, unfolding(crate::specs::Planner::summary_of))]
fn sum_up(sends: u32, time: u32, arrivals: &[u16]) -> Summary
    requires { length arrivals.now ≤ 512 }
    ensures { result ≡ summary_of (length arrivals.now) sends time arrivals.now }
{
    let last = greatest(arrivals);
    let sum = sum(arrivals);
    let rows = arrivals.len() as u32;
    Summary {
        last: Slot(last),
        sends,
        sum,
        mean: divide(sum, rows),
        share: divide(sends, time),
    }
}

// The sends of rows that have so many links to go: one for each link of each cell.
fn count_sends(rows: &[Row], links: &[u16]) -> u32
    requires { (length links.now ≡ length rows.now) × (cells_in rows.now ≤ 1024) }
    ensures { result ≡ crossed (lengths rows.now) links.now }
{
    let mut sends = 0u32;
    for (i, row) in rows.iter().enumerate() {
        sends += row.len as u32 * links[i] as u32;
    }
    sends
}

// Plans a well-formed table in areas of just its size, and answers with its figures or with the late row.
#[tactic(auto, using(crate::proofs::Good::rows_few))]
fn plan_good(nodes: u16, rows: &[Row], plan: &mut [u16], arrivals: &mut [u16]) -> Reply
    requires { WellFormed nodes rows.now × JustRoom nodes rows.now plan.old arrivals.old }
    ensures { RunPlanned nodes rows.now result plan.new arrivals.new }
{
    let count = rows.len();
    let mut links: [u16; 512] = zeros();
    let links = &mut links[..count];
    measure(nodes, rows, links);
    let sends = count_sends(rows, links);
    let ending = run_rows(nodes, rows, links, plan, arrivals);
    let stop = ending.stop;
    let answer = if stop.row == 0 {
        let time = nodes as u32 * greatest(arrivals) as u32;
        Ok(sum_up(sends, time, arrivals))
    } else {
        Err(Refusal {
            number: 9,
            row: stop.row,
            slot: stop.slot,
        })
    };
    Reply {
        answer,
        looks: ending.looks,
    }
}

// How many entries of the plan a table uses; or the refusal of a table that is no good, or of an area that is too short.
#[tactic(auto, using(std::proofs::lemmas::Bool::Decides::nat_tests), unfolding(crate::specs::Steps::room_for, crate::specs::Steps::before_run))]
fn find_room(nodes: u16, rows: &[Row], plan: usize, arrivals: usize) -> Result<usize, Refusal>
    ensures { result ≡ room_for nodes rows.now plan arrivals }
{
    judge(nodes, rows)?;
    let need = nodes as usize * last_due(rows) as usize;
    if plan < need {
        return Err(Refusal::of_table(7));
    }
    if arrivals < rows.len() {
        return Err(Refusal::of_table(8));
    }
    Ok(need)
}

// Plans a table: the lent plan says which row each link carries in each slot, the lent arrivals when each row is there.
pub fn plan(nodes: u16, rows: &[Row], plan: &mut [u16], arrivals: &mut [u16]) -> Reply
    ensures { Planned nodes rows.now plan.old arrivals.old result plan.new
        arrivals.new }
{
    let count = rows.len();
    match find_room(nodes, rows, plan.len(), arrivals.len()) {
        Err(refusal) => Reply {
            answer: Err(refusal),
            looks: 0,
        },
        Ok(used) => plan_good(nodes, rows, &mut plan[..used], &mut arrivals[..count]),
    }
}
