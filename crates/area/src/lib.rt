// A table as it lies in its lent area, and what is asked of it: its rows, the load of each link and the busiest link.
#![tactic(auto)]

ghost use Rattle.std.specs.Prelude.{◌≡◌, ◌≤◌, ◌<◌, min, length, get_or, take};
ghost use Rattle.table.specs.Table.{most_rows};
ghost use Rattle.area.specs.Area.{most_links, room, count_in, row_in, rows_in, loads_in, busiest_in};
ghost use Rattle.area.specs.Steps.{most_listed};

use arrayvec::ArrayVec;
use lists::{first_place, greatest, lower};
use ring::Node;
use table::Row;

// The most links that a ring may have.
pub const MOST_LINKS: usize = 32;

// The most rows that a table may have.
pub const MOST_ROWS: usize = 512;

// How many rows an area is looked through for: one more than a table may have, so that too many are seen.
pub const MOST_LISTED: usize = MOST_ROWS + 1;

// How many numbers a row has in an area.
pub const ROW_WIDTH: usize = 4;

// Where the loads begin, behind the number of nodes and the number of rows.
pub const LOADS_BEGIN: usize = 2;

// Where the rows begin, behind the loads.
pub const ROWS_BEGIN: usize = LOADS_BEGIN + MOST_LINKS;

// How many numbers an area has.
pub const ROOM: usize = ROWS_BEGIN + ROW_WIDTH * MOST_ROWS;

// The area that is lent for a table.
pub type Area = [u16; ROOM];

// A link, and how many cells cross it.
#[derive(Clone, Copy)]
pub struct LinkLoad {
    pub link: Node,
    pub load: u16,
}

// One row of an area.
#[tactic(auto, unfolding(crate::specs::Area::row_in))]
pub fn row_in(table: &Area, i: usize) -> Row
    requires { i < most_rows }
    ensures { result ≡ row_in table.now i }
{
    let at = ROWS_BEGIN + ROW_WIDTH * i;
    Row {
        src: table[at],
        dst: table[at + 1],
        len: table[at + 2],
        due: table[at + 3],
    }
}

// The number of rows.
pub fn row_count(table: &Area) -> u16
    ensures { result ≡ count_in table.now }
{
    table[1]
}

// How many links a ring of so many nodes has.
fn link_count(nodes: u16) -> usize
    ensures { result ≡ min nodes most_links }
{
    lower(nodes as usize, MOST_LINKS)
}

// How many cells cross a link, 0 for a link that the ring does not have: a panel shows 32 links, whatever the ring.
pub fn link_load(table: &Area, link: Node) -> u16
    ensures { result ≡ get_or (loads_in table.now) link.0 0 }
{
    let links = link_count(table[0]);
    let p = link.0 as usize;
    if p < links {
        return table[LOADS_BEGIN + p];
    }
    0
}

// The busiest of a list of loads.
fn busiest_in(loads: &[u16]) -> LinkLoad
    requires { length loads.now ≤ most_links }
    ensures { result ≡ busiest_in loads.now }
{
    let load = greatest(loads);
    let link = first_place(loads, load);
    LinkLoad {
        link: Node(link as u16),
        load,
    }
}

// The busiest link, the lowest on a tie, and its load.
pub fn busiest(table: &Area) -> LinkLoad
    ensures { result ≡ busiest_in (loads_in table.now) }
{
    let end = LOADS_BEGIN + link_count(table[0]);
    busiest_in(&table[LOADS_BEGIN..end])
}

// The row of four zeros, which stands past the last place.
const BLANK: Row = Row {
    src: 0,
    dst: 0,
    len: 0,
    due: 0,
};

// The rows that the area gives: all of them where a table may have so many, and else one more than that.
pub fn list_rows(table: &Area) -> ArrayVec<Row, MOST_LISTED>
    ensures { result.items ≡ take most_listed (rows_in table.now) }
{
    let count = row_count(table) as usize;
    let mut rows = ArrayVec::new();
    for i in 0..count.min(MOST_ROWS) {
        rows.push(row_in(table, i));
    }
    if MOST_ROWS < count {
        rows.push(BLANK);
    }
    rows
}
