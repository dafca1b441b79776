// The table as text: the lines of a row by their keys, and bytes written at a place of an area.
#![tactic(auto)]

ghost use Rattle.std.specs.Prelude.{◌≡◌, [], ◌+◌, ◌%◌, ◌≤◌, ◌<◌, length, get_or};
ghost use Rattle.table.specs.Table.{row_numbers, row_by};
ghost use Rattle.text.specs.Text.{width, numeral, item, line, digit_zero, row_keys};
ghost use Rattle.text.specs.Steps.{tenth, pasted};

use table::Row;

// The head of a table that was read: the number of nodes and the number of rows.
#[derive(Clone, Copy)]
pub struct Header {
    pub nodes: u16,
    pub rows: u16,
}

// A text that was read: the head of its table, and a place for each row that a table may have, of which the head says how
// many are read. It has no list with a length of its own, so that whoever parsed a text may copy what came of it.
#[derive(Clone, Copy)]
pub struct Parsed {
    pub head: Header,
    pub rows: [Row; 512],
}

// How many lines a row has.
pub const ROW_LINES: usize = 4;

// The keys of a row's lines, in their order: src=, dst=, len=, due=.
const ROW_KEYS: [[u8; 4]; ROW_LINES] = [*b"src=", *b"dst=", *b"len=", *b"due="];

// The key of line j of a row, counted from 0.
#[tactic(auto, unfolding(crate::specs::Text::row_keys))]
pub fn row_key(j: usize) -> [u8; 4]
    requires { j < length row_keys }
    ensures { result ≡ get_or row_keys j [] }
{
    ROW_KEYS[j]
}

// The values of a row, in the order of its lines.
pub fn values_of(row: Row) -> [u16; ROW_LINES]
    ensures { result ≡ row_numbers row }
{
    [row.src, row.dst, row.len, row.due]
}

// The row of such values.
pub fn row_by(values: [u16; ROW_LINES]) -> Row
    ensures { result ≡ row_by (λ j. get_or values j 0) }
{
    Row {
        src: values[0],
        dst: values[1],
        len: values[2],
        due: values[3],
    }
}

// How many digits a number has.
#[tactic(auto, unfolding(crate::specs::Text::width))]
pub fn width_of(v: u32) -> usize
    ensures { result ≡ width v }
{
    match v {
        0..=9 => 1,
        10..=99 => 2,
        100..=999 => 3,
        1000..=9999 => 4,
        _ => 5,
    }
}

// The digit of a number that has so many digits behind it.
fn digit(v: u16, behind: usize) -> u8
    ensures { result ≡ digit_zero + tenth behind v % 10 }
{
    let mut rest = v;
    for _ in 0..behind {
        rest /= 10;
    }
    b'0' + (rest % 10) as u8
}

// Copies bytes to a place, and returns the place behind them.
pub fn put_bytes(area: &mut [u8], at: usize, bytes: &[u8]) -> usize
    requires { at + length bytes.now ≤ length area.old }
    ensures { (result ≡ at + length bytes.now)
        × (area.new ≡ pasted area.old at bytes.now) }
{
    let end = at + bytes.len();
    area[at..end].copy_from_slice(bytes);
    end
}

// Writes a numeral at a place, and returns the place behind it.
pub fn put_numeral(area: &mut [u8], at: usize, v: u16) -> usize
    requires { at + length (numeral v) ≤ length area.old }
    ensures { (result ≡ at + length (numeral v)) × (area.new ≡ pasted area.old at (numeral v)) }
{
    let w = width_of(v as u32);
    for j in 0..w {
        area[at + j] = digit(v, w - 1 - j);
    }
    at + w
}

// Writes a number behind a key, and a mark, at a place, and returns the place behind them.
pub fn put_item(area: &mut [u8], at: usize, key: &[u8], v: u16, mark: u8) -> usize
    requires { at + length (item key.now v mark) ≤ length area.old }
    ensures { (result ≡ at + length (item key.now v mark))
        × (area.new ≡ pasted area.old at (item key.now v mark)) }
{
    let from = put_bytes(area, at, key);
    let end = put_numeral(area, from, v);
    area[end] = mark;
    end + 1
}

// Writes a line at a place, and returns the place behind it.
#[tactic(auto, unfolding(crate::specs::Text::line))]
pub fn put_line(area: &mut [u8], at: usize, key: &[u8], v: u16) -> usize
    requires { at + length (line key.now v) ≤ length area.old }
    ensures { (result ≡ at + length (line key.now v))
        × (area.new ≡ pasted area.old at (line key.now v)) }
{
    put_item(area, at, key, v, b'\n')
}
