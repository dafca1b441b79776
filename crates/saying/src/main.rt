// Reads a catalogue from standard input, plans three small tables, and prints the sentence of each answer.
#![tactic(auto)]

use planner::{Summary, plan};
use sentence::sentence_of;
use std::io;
use table::{Refusal, Row};

// Prints the sentence of an answer, or the number of what forbids it.
fn say(rt: &impl Print, catalogue: &[u8], answer: Result<Summary, Refusal>) -> io::Result<()> {
    let mut area = [0u8; 128];
    match sentence_of(catalogue, answer, &mut area) {
        Ok(length) => rt.write_all(&area[..length])?,
        Err(r) => rt.print(r.number)?,
    }
    rt.write_all(b"\n")
}

// Plans two rows on a ring of four nodes, and says what came of it.
fn say_plan(rt: &impl Print, catalogue: &[u8], a: Row, b: Row) -> io::Result<()> {
    let mut entries = [0u16; 16];
    let mut arrivals = [0u16; 2];
    let reply = plan(4, &[a, b], &mut entries, &mut arrivals);
    say(rt, catalogue, reply.answer)
}

// One row of a case, of one cell.
fn row(src: u16, dst: u16, due: u16) -> Row {
    Row {
        src,
        dst,
        len: 1,
        due,
    }
}

// Says case B of document 01's sweep table, which is accepted, case D, which is late, and a row to a node that the
// ring does not have.
fn main(rt: HostRuntime) -> io::Result<()> {
    let mut text = [0u8; 4096]; // a longer catalogue is read no further, since no right one is so long
    let count = intake::fill(&mut rt.stdin(), &mut text)?;
    let catalogue = &text[..count];
    say_plan(&rt, catalogue, row(0, 1, 2), row(0, 3, 3))?;
    say_plan(&rt, catalogue, row(0, 1, 1), row(0, 1, 1))?;
    say_plan(&rt, catalogue, row(0, 1, 2), row(2, 4, 1))
}
