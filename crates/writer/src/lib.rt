// Writes the text of a table: it counts the bytes first, and then writes line by line.
#![tactic(auto)]

ghost use Rattle.std.specs.Prelude.{◌≡◌, ◌≤◌, length};
ghost use Rattle.table.specs.Table.{most_rows};
ghost use Rattle.text.specs.Text.{line, row_text, rows_text, TextPut};
ghost use Rattle.text.specs.Steps.{pasted, Put, Room};

use table::{Refusal, Row};
use text::{ROW_LINES, put_line, row_key, values_of, width_of};

// The length of a line.
fn line_length(key: &[u8], v: u16) -> usize
    ensures { result ≡ length (line key.now v) }
{
    key.len() + width_of(v as u32) + 1
}

// The length of a row's lines.
fn row_length(row: Row) -> usize
    ensures { result ≡ length (row_text row) }
{
    let values = values_of(row);
    let mut sum = 0;
    for j in 0..ROW_LINES {
        sum += line_length(&row_key(j), values[j]);
    }
    sum
}

// Writes a row's lines at a place, and returns the place behind them.
fn put_row(area: &mut [u8], at: usize, row: Row) -> usize
    requires { Room area.old at (row_text row) }
    ensures { Put area.old at (row_text row) result area.new }
{
    let values = values_of(row);
    let mut next = at;
    for j in 0..ROW_LINES {
        next = put_line(area, next, &row_key(j), values[j]);
    }
    next
}

// The length of the lines of the rows.
fn rows_length(rows: &[Row]) -> usize
    requires { length rows.now ≤ most_rows }
    ensures { result ≡ length (rows_text rows.now) }
{
    let mut sum = 0;
    for row in rows {
        sum += row_length(*row);
    }
    sum
}

// Writes the lines of the rows at a place.
fn put_rows(area: &mut [u8], from: usize, rows: &[Row])
    requires { Room area.old from (rows_text rows.now) }
    ensures { area.new ≡ pasted area.old from (rows_text rows.now) }
{
    let mut at = from;
    for row in rows {
        at = put_row(area, at, *row);
    }
}

// Writes the text of a table into an area that is long enough.
pub fn write(nodes: u16, rows: &[Row], area: &mut [u8]) -> Result<usize, Refusal>
    ensures { TextPut nodes rows.now area.old result area.new }
{
    if 512 < rows.len() {
        return Err(Refusal::of_table(2));
    }
    let count = rows.len() as u16;
    let head = line_length(b"nodes=", nodes) + line_length(b"rows=", count);
    let length = head + rows_length(rows);
    if area.len() < length {
        return Err(Refusal::of_table(22));
    }
    let second = put_line(area, 0, b"nodes=", nodes);
    let third = put_line(area, second, b"rows=", count);
    put_rows(area, third, rows);
    Ok(length)
}
