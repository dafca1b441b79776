// Prints what the plan program answers: it reads a text, plans the table, and writes lines of key=value.
#![tactic(auto)]

ghost use Rattle.std.specs.Prelude.{◌≡◌, cond, ◌+◌, ◌/◌, ◌≤◌, ◌<◌, ltb, length};
ghost use Rattle.text.specs.Text.{line_feed};
ghost use Rattle.report.specs.Report.{comma, output_most, verdict_lines, arrive_lines};
ghost use Rattle.report.specs.Report.{send_line, send_lines, accepted_text, table_text, Reported};
ghost use Rattle.text.specs.Steps.{Put, Room};
ghost use Rattle.report.specs.Steps.{Slotted};

use lists::zeros;
use planner::plan;
use reader::parse;
use table::{Refusal, Row, last_due};
use text::{put_bytes, put_item, put_line};

// Writes the three lines of a refusal at the front.
fn put_verdict(area: &mut [u8], refusal: Refusal) -> usize
    requires { Room area.old 0 (verdict_lines refusal) }
    ensures { Put area.old 0 (verdict_lines refusal) result area.new }
{
    let second = put_line(area, 0, b"answer=", refusal.number);
    let third = put_line(area, second, b"row=", refusal.row);
    put_line(area, third, b"slot=", refusal.slot.0)
}

// Writes one arrive line per row.
fn put_arrives(area: &mut [u8], from: usize, arrivals: &[u16]) -> usize
    requires { Room area.old from (arrive_lines arrivals.now) }
    ensures { Put area.old from (arrive_lines arrivals.now) result area.new }
{
    let mut at = from;
    for arrival in arrivals {
        at = put_line(area, at, b"arrive=", *arrival);
    }
    at
}

// What stands behind entry i of n: a comma, or a line feed behind the last.
fn mark_behind(i: usize, n: usize) -> u8
    requires { i < n }
    ensures { result ≡ cond (ltb (i + 1) n) comma line_feed }
{
    if i + 1 < n { b',' } else { b'\n' }
}

// Writes one slot's send line.
fn put_send(area: &mut [u8], from: usize, entries: &[u16]) -> usize
    requires { Room area.old from (send_line entries.now) }
    ensures { Put area.old from (send_line entries.now) result area.new }
{
    let n = entries.len();
    let mut at = put_bytes(area, from, b"send=");
    for (i, entry) in entries.iter().enumerate() {
        at = put_item(area, at, b"", *entry, mark_behind(i, n));
    }
    at
}

// Writes one send line per slot of a plan.
fn put_sends(area: &mut [u8], from: usize, nodes: usize, plan: &[u16]) -> usize
    requires { Slotted nodes plan.now
        × Room area.old from (send_lines nodes (length plan.now / nodes) plan.now) }
    ensures { Put area.old from (send_lines nodes (length plan.now / nodes) plan.now) result area.new }
{
    let mut at = from;
    for entries in plan.chunks(nodes) {
        at = put_send(area, at, entries);
    }
    at
}

// Writes what is printed for an accepted table.
fn put_accepted(area: &mut [u8], last: u16, arrivals: &[u16], nodes: usize, plan: &[u16]) -> usize
    requires { Slotted nodes plan.now
        × Room area.old 0 (accepted_text last arrivals.now nodes (length plan.now / nodes) plan.now) }
    ensures { Put area.old 0
        (accepted_text last arrivals.now nodes (length plan.now / nodes) plan.now) result area.new }
{
    let second = put_verdict(area, Refusal::of_table(0));
    let third = put_line(area, second, b"last=", last);
    let fourth = put_arrives(area, third, arrivals);
    put_sends(area, fourth, nodes, plan)
}

// Plans a table and writes what is printed for it.
fn respond_table(nodes: u16, rows: &[Row], area: &mut [u8]) -> usize
    requires { output_most ≤ length area.old }
    ensures { Put area.old 0 (table_text nodes rows.now) result area.new }
{
    let mut schedule: [u16; 32768] = zeros();
    let mut arrivals: [u16; 512] = zeros();
    match plan(nodes, rows, &mut schedule, &mut arrivals).answer {
        Err(refusal) => put_verdict(area, refusal),
        Ok(summary) => {
            let count = rows.len();
            let slots = last_due(rows) as usize;
            let links = nodes as usize;
            let entries = links * slots;
            put_accepted(
                area,
                summary.last.0,
                &arrivals[..count],
                links,
                &schedule[..entries],
            )
        }
    }
}

// Reads and plans the table of a text, and writes what the plan program prints.
pub fn respond(text: &[u8], area: &mut [u8]) -> usize
    requires { output_most ≤ length area.old }
    ensures { Reported text.now area.old result area.new }
{
    match parse(text, 512) {
        Err(refusal) => put_verdict(area, refusal),
        Ok(parsed) => {
            let count = parsed.head.rows as usize;
            respond_table(parsed.head.nodes, &parsed.rows[..count], area)
        }
    }
}
