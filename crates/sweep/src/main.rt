// Runs document 01's sweep table and some edits through the entry points, and prints what comes back.
#![tactic(auto)]

ghost use Rattle.std.specs.Prelude.{◌≡◌, ℕ, ◌≤◌, length, replicate};
ghost use Rattle.planner.specs.Planner.{Planned};

use area::{Area, list_rows};
use lists::zeros;
use planner::{Reply, Summary, plan};
use ring::Node;
use std::io;
use table::{Refusal, Row};

// What the areas hold before a case, so that the entries that it touched can be told: no row's number and no instant is
// as large.
const UNTOUCHED: u16 = 65535;

// One row of a case, of one cell.
fn row(src: u16, dst: u16, due: u16) -> Row {
    Row {
        src,
        dst,
        len: 1,
        due,
    }
}

// An area of N entries that nobody has touched yet.
fn untouched<const N: usize>() -> [u16; N]
    ensures { result ≡ replicate {A = ℕ} N 65535 }
{
    [UNTOUCHED; N]
}

// Plans the rows of a case, all of them, in the areas that are printed.
fn plan_case(nodes: u16, rows: &[Row], entries: &mut [u16], arrivals: &mut [u16]) -> Reply
    ensures { Planned nodes rows.now entries.old arrivals.old result entries.new arrivals.new }
{
    plan(nodes, rows, entries, arrivals)
}

// How many entries at the front of an area a case touched.
fn touched(area: &[u16]) -> usize
    ensures { result ≤ length area.now }
{
    area.iter()
        .position(|entry| *entry == UNTOUCHED)
        .unwrap_or(area.len())
}

// How many entries of a plan name a row.
fn busy(plan: &[u16]) -> usize {
    plan.iter().filter(|row| **row != 0).count()
}

// Writes one line, a key and a number.
fn print_line(rt: &impl Print, key: &[u8], number: u64) -> io::Result<()> {
    rt.write_all(key)?;
    rt.write_all(b"=")?;
    rt.print(number)?;
    rt.write_all(b"\n")
}

// Writes the three lines that every answer has.
fn print_answer(rt: &impl Print, number: u16, row: u16, slot: u16) -> io::Result<()> {
    print_line(rt, b"answer", number as u64)?;
    print_line(rt, b"row", row as u64)?;
    print_line(rt, b"slot", slot as u64)
}

// Writes how many entries of the two areas a case touched.
fn print_touched(rt: &impl Print, plan: &[u16], arrivals: &[u16]) -> io::Result<()> {
    print_line(rt, b"entries", plan.len() as u64)?;
    print_line(rt, b"instants", arrivals.len() as u64)
}

// Writes one line, a key and the bits of a float, which say it exactly; nothing where it is below 0 or no number.
fn print_bits(rt: &impl Print, key: &[u8], x: f64) -> io::Result<()> {
    if 0.0 <= x {
        print_line(rt, key, f64::to_bits(x))?;
    }
    Ok(())
}

// Writes the figures of an accepted table.
fn print_summary(rt: &impl Print, s: Summary) -> io::Result<()> {
    print_line(rt, b"last", s.last.0 as u64)?;
    print_line(rt, b"sends", s.sends as u64)?;
    print_line(rt, b"sum", s.sum as u64)?;
    print_bits(rt, b"mean_bits", s.mean)?;
    print_bits(rt, b"share_bits", s.share)
}

// Writes one line for each row's delivery instant.
fn print_arrivals(rt: &impl Print, arrivals: &[u16]) -> io::Result<()> {
    for instant in arrivals {
        print_line(rt, b"arrive", u64::from(*instant))?;
    }
    Ok(())
}

// Writes one entry of a slot, with what stands before it in the line.
fn print_entry(rt: &impl Print, link: usize, row: u16) -> io::Result<()> {
    if link == 0 {
        rt.write_all(b"send=")?;
    } else {
        rt.write_all(b",")?;
    }
    rt.print(row)
}

// Writes one line with what the links carry in a slot.
fn print_slot(rt: &impl Print, slot: &[u16]) -> io::Result<()> {
    for (link, row) in slot.iter().enumerate() {
        print_entry(rt, link, *row)?;
    }
    rt.write_all(b"\n")
}

// Writes one line for each slot of a plan.
fn print_slots(rt: &impl Print, nodes: usize, plan: &[u16]) -> io::Result<()> {
    for slot in plan.chunks_exact(nodes.max(1)) {
        print_slot(rt, slot)?;
    }
    Ok(())
}

// Writes the slots of a plan: all of a short one, the first and the last of a long one.
fn print_plan(rt: &impl Print, nodes: usize, plan: &[u16]) -> io::Result<()> {
    let entries = plan.len();
    if entries <= 32 {
        print_slots(rt, nodes, plan)?;
    } else if nodes <= entries {
        print_slot(rt, &plan[..nodes])?;
        let last = entries - nodes;
        print_slot(rt, &plan[last..])?;
    }
    Ok(())
}

// Writes what a case came to: the looks, the answer, the entries that it touched, and where the table was accepted its
// figures, arrivals and plan.
fn print_outcome(
    rt: &impl Print,
    nodes: usize,
    reply: Reply,
    plan: &[u16],
    arrivals: &[u16],
) -> io::Result<()> {
    print_line(rt, b"looks", reply.looks as u64)?;
    match reply.answer {
        Err(r) => {
            print_answer(rt, r.number, r.row, r.slot.0)?;
            print_touched(rt, plan, arrivals)
        }
        Ok(s) => {
            print_answer(rt, 0, 0, 0)?;
            print_touched(rt, plan, arrivals)?;
            print_summary(rt, s)?;
            print_line(rt, b"busy", busy(plan) as u64)?;
            print_arrivals(rt, arrivals)?;
            print_plan(rt, nodes, plan)
        }
    }
}

// Writes what planning in fresh areas came to, with just the entries that it touched.
fn print_areas(
    rt: &impl Print,
    nodes: usize,
    reply: Reply,
    plan: &[u16],
    arrivals: &[u16],
) -> io::Result<()> {
    let entries = touched(plan);
    let instants = touched(arrivals);
    print_outcome(rt, nodes, reply, &plan[..entries], &arrivals[..instants])
}

// Plans rows in fresh areas and writes what it came to.
fn print_planned(rt: &impl Print, nodes: u16, rows: &[Row]) -> io::Result<()> {
    let mut entries: [u16; 2050] = untouched(); // the longest plan of the sweep, and two entries more
    let mut arrivals: [u16; 4] = untouched(); // three rows, and one entry more
    let reply = plan_case(nodes, rows, &mut entries, &mut arrivals);
    print_areas(rt, nodes as usize, reply, &entries, &arrivals)
}

// Writes a case's letter, and what its rows come to.
fn run_case(rt: &impl Print, letter: &[u8], nodes: u16, rows: &[Row]) -> io::Result<()> {
    rt.write_all(b"case=")?;
    rt.write_all(letter)?;
    rt.write_all(b"\n")?;
    print_planned(rt, nodes, rows)
}

// The cases of document 01's sweep table that are accepted or late.
fn run_rule_cases(rt: &impl Print) -> io::Result<()> {
    run_case(rt, b"A", 4, &[row(0, 2, 3), row(0, 1, 2)])?;
    run_case(rt, b"B", 4, &[row(0, 1, 2), row(0, 3, 3)])?;
    run_case(rt, b"C", 4, &[row(2, 0, 2), row(2, 3, 2)])?;
    run_case(rt, b"D", 4, &[row(0, 1, 1); 2])?;
    run_case(rt, b"E", 4, &[row(0, 2, 1)])?;
    run_case(rt, b"F", 2, &[row(1, 0, 3); 3])?;
    run_case(rt, b"G", 2, &[row(1, 0, 2); 3])
}

// The cases at the edges: no rows, a bad row, the latest due slot, and too many nodes.
fn run_edge_cases(rt: &impl Print) -> io::Result<()> {
    run_case(rt, b"H", 4, &[])?;
    run_case(rt, b"J", 4, &[row(0, 0, 1025)])?;
    run_case(rt, b"K", 2, &[row(0, 1, 1025)])?;
    run_case(rt, b"K", 2, &[row(0, 1, 1024)])?;
    run_case(rt, b"L", 33, &[row(40, 40, 0)])
}

// Writes the loads of the first four links of a table that is edited.
fn print_loads(rt: &impl Print, table: &Area) -> io::Result<()> {
    for p in 0..4 {
        print_line(rt, b"load", u64::from(area::link_load(table, Node(p))))?;
    }
    Ok(())
}

// Writes what an edit came to, and the rows, loads and busiest link that the table then has.
fn print_edit(
    rt: &impl Print,
    name: &[u8],
    verdict: Result<(), Refusal>,
    table: &Area,
) -> io::Result<()> {
    rt.write_all(b"edit=")?;
    rt.write_all(name)?;
    rt.write_all(b"\n")?;
    match verdict {
        Ok(()) => print_answer(rt, 0, 0, 0)?,
        Err(r) => print_answer(rt, r.number, r.row, r.slot.0)?,
    }
    print_line(rt, b"rows", u64::from(area::row_count(table)))?;
    print_loads(rt, table)?;
    let busiest = area::busiest(table);
    print_line(rt, b"busiest", u64::from(busiest.link.0))?;
    print_line(rt, b"most", u64::from(busiest.load))
}

// Opens a table in the lent area and adds rows, one past node 0; a bad one is refused under its coming number.
fn run_adding(rt: &impl Print, table: &mut Area) -> io::Result<()> {
    print_edit(rt, b"open", edit::open(table, 33), table)?;
    print_edit(rt, b"open", edit::open(table, 4), table)?;
    print_edit(rt, b"add", edit::add(table, row(0, 2, 4)), table)?;
    print_edit(rt, b"add", edit::add(table, row(3, 1, 5)), table)?;
    print_edit(rt, b"add", edit::add(table, row(1, 0, 9)), table)?;
    print_edit(rt, b"add", edit::add(table, row(4, 0, 9)), table)
}

// Changes and removes rows of that table; numbers that aren't there are refused.
fn run_changing(rt: &impl Print, table: &mut Area) -> io::Result<()> {
    print_edit(rt, b"change", edit::change(table, 1, row(2, 3, 1)), table)?;
    print_edit(rt, b"change", edit::change(table, 9, row(2, 3, 1)), table)?;
    print_edit(rt, b"remove", edit::remove(table, 2), table)?;
    print_edit(rt, b"remove", edit::remove(table, 0), table)
}

// Plans the table that was edited.
fn run_edited(rt: &impl Print, table: &Area) -> io::Result<()> {
    let rows = list_rows(table);
    print_planned(rt, table[0], rows.as_slice())
}

// Edits a table, and plans it.
fn run_editing(rt: &impl Print) -> io::Result<()> {
    let mut table: Area = zeros();
    run_adding(rt, &mut table)?;
    run_changing(rt, &mut table)?;
    run_edited(rt, &table)
}

// Runs the sweep table through the planner, then the cases of editing.
fn main(rt: HostRuntime) -> io::Result<()> {
    run_rule_cases(&rt)?;
    run_edge_cases(&rt)?;
    run_editing(&rt)
}
