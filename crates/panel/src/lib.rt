// The panel's way in: each function is thin over a proved entry point, and is called from C or Rust by its plain name.
#![tactic(auto)]

ghost use Rattle.std.specs.Prelude.{◌≡◌, get_or};
ghost use Rattle.area.specs.Area.{count_in, nodes_in, rows_in, loads_in, busiest_in};
ghost use Rattle.edit.specs.Edit.{entry_of};
ghost use Rattle.edit_judge.specs.Judge.{Add, Change, Remove};
ghost use Rattle.flat.specs.Flat.{flat_verdict, flat_entry, flat_link};
ghost use Rattle.panel.specs.Panel.{PanelPlanned, PanelRead, PanelWritten, PanelOpened, PanelEdited};
ghost use Rattle.panel.specs.Panel.{PanelSentence, PanelLabel, PanelReasoned};
ghost use Rattle.looks.specs.Looks.{most_looks};
ghost use Rattle.catalogue.specs.Catalogue.{verdict_on};

use area::{Area, list_rows};
use flat::{
    EditAnswer, LinkAnswer, PlanAnswer, ReadAnswer, ReasonAnswer, RowAnswer, SentenceAnswer,
    WriteAnswer,
};
use ring::Node;
use table::Row;

// Plans a table in the lent areas, and answers in plain numbers.
#[unsafe(no_mangle)]
pub extern "C" fn garboardle_plan(
    nodes: u16,
    rows: &[Row],
    plan: &mut [u16],
    arrivals: &mut [u16],
) -> PlanAnswer
    ensures { PanelPlanned nodes rows.now plan.old arrivals.old result
        plan.new arrivals.new }
{
    planner::plan(nodes, rows, plan, arrivals).into()
}

// The most looks that planning a table can take, for a watchdog that must know before it calls.
#[unsafe(no_mangle)]
pub extern "C" fn garboardle_most_looks(nodes: u16, rows: &[Row]) -> u32
    ensures { result ≡ most_looks nodes rows.now }
{
    looks::most_looks(nodes, rows)
}

// Says why a table is late, and of each row, in the lent list, how many of its cells are to blame.
#[unsafe(no_mangle)]
pub extern "C" fn garboardle_reason(nodes: u16, rows: &[Row], members: &mut [u16]) -> ReasonAnswer
    ensures { PanelReasoned nodes rows.now members.old result members.new }
{
    reason::why_late(nodes, rows, members).into()
}

// Reads a table's text into the lent rows, and answers in plain numbers.
#[unsafe(no_mangle)]
pub extern "C" fn garboardle_read(text: &[u8], rows: &mut [Row]) -> ReadAnswer
    ensures { PanelRead text.now rows.old result rows.new }
{
    reader::read(text, rows).into()
}

// Writes a table's text into the lent area, and answers in plain numbers.
#[unsafe(no_mangle)]
pub extern "C" fn garboardle_write(nodes: u16, rows: &[Row], area: &mut [u8]) -> WriteAnswer
    ensures { PanelWritten nodes rows.now area.old result area.new }
{
    writer::write(nodes, rows, area).into()
}

// Opens an empty table for so many nodes in the lent area.
#[unsafe(no_mangle)]
pub extern "C" fn garboardle_open(table: &mut Area, nodes: u16) -> EditAnswer
    ensures { PanelOpened nodes table.old result table.new }
{
    edit::open(table, nodes).into()
}

// Adds a row at the end of an open table.
#[unsafe(no_mangle)]
pub extern "C" fn garboardle_add(table: &mut Area, row: Row) -> EditAnswer
    ensures { PanelEdited table.old (Add row) result table.new }
{
    edit::add(table, row).into()
}

// Changes row `number` of an open table.
#[unsafe(no_mangle)]
pub extern "C" fn garboardle_change(table: &mut Area, number: u16, row: Row) -> EditAnswer
    ensures { PanelEdited table.old (Change number row) result table.new }
{
    edit::change(table, number, row).into()
}

// Removes row `number` of an open table.
#[unsafe(no_mangle)]
pub extern "C" fn garboardle_remove(table: &mut Area, number: u16) -> EditAnswer
    ensures { PanelEdited table.old (Remove number) result table.new }
{
    edit::remove(table, number).into()
}

// The number of rows of an open table.
#[unsafe(no_mangle)]
pub extern "C" fn garboardle_row_count(table: &Area) -> u16
    ensures { result ≡ count_in table.now }
{
    area::row_count(table)
}

// Row `number` of an open table.
#[unsafe(no_mangle)]
pub extern "C" fn garboardle_row_of(table: &Area, number: u16) -> RowAnswer
    ensures { result ≡ flat_entry (entry_of table.now number) }
{
    edit::row_of(table, number).into()
}

// How many cells of an open table cross a link.
#[unsafe(no_mangle)]
pub extern "C" fn garboardle_link_load(table: &Area, link: u16) -> u16
    ensures { result ≡ get_or (loads_in table.now) link 0 }
{
    area::link_load(table, Node(link))
}

// The busiest link of an open table.
#[unsafe(no_mangle)]
pub extern "C" fn garboardle_busiest(table: &Area) -> LinkAnswer
    ensures { result ≡ flat_link (busiest_in (loads_in table.now)) }
{
    area::busiest(table).into()
}

// Plans an open table in the lent areas, as `garboardle_plan` plans the same rows.
#[unsafe(no_mangle)]
pub extern "C" fn garboardle_plan_table(
    table: &Area,
    plan: &mut [u16],
    arrivals: &mut [u16],
) -> PlanAnswer
    ensures { PanelPlanned (nodes_in table.now) (rows_in table.now) plan.old
        arrivals.old result plan.new arrivals.new }
{
    let rows = list_rows(table);
    planner::plan(table[0], rows.as_slice(), plan, arrivals).into()
}

// The most looks that planning an open table can take.
#[unsafe(no_mangle)]
pub extern "C" fn garboardle_most_looks_table(table: &Area) -> u32
    ensures { result ≡ most_looks (nodes_in table.now) (rows_in table.now) }
{
    let rows = list_rows(table);
    looks::most_looks(table[0], rows.as_slice())
}

// Judges a catalogue.
#[unsafe(no_mangle)]
pub extern "C" fn garboardle_catalogue(catalogue: &[u8]) -> EditAnswer
    ensures { result ≡ flat_verdict (verdict_on catalogue.now) }
{
    catalogue::judge(catalogue).into()
}

// Writes the sentence of an answer into the lent area.
#[unsafe(no_mangle)]
pub extern "C" fn garboardle_sentence(
    catalogue: &[u8],
    number: u16,
    row: u16,
    slot: u16,
    area: &mut [u8],
) -> SentenceAnswer
    ensures { PanelSentence catalogue.now number row slot area.old result area.new }
{
    sentence::sentence(catalogue, number, row, slot, area).into()
}

// Writes the label of a field into the lent area.
#[unsafe(no_mangle)]
pub extern "C" fn garboardle_label(catalogue: &[u8], field: u16, area: &mut [u8]) -> SentenceAnswer
    ensures { PanelLabel catalogue.now field area.old result area.new }
{
    sentence::label(catalogue, field, area).into()
}
