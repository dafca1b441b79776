// Reads the text of a table, line by line, into rows.
#![tactic(auto)]

ghost use Rattle.std.specs.Prelude.{◌≤◌, length};
ghost use Rattle.text.specs.Text.{TextParsed, TextTaken};
ghost use Rattle.reader.specs.Steps.{RowsRead};

use lines::{line_at, row_at};
use table::{Refusal, Row};
use text::{Header, Parsed, ROW_LINES};

// The row of four zeros, which stands where no row is read.
const BLANK: Row = Row {
    src: 0,
    dst: 0,
    len: 0,
    due: 0,
};

// Reads the lines of so many rows, and nothing behind them, or finds the first that is wrong.
fn read_rows(text: &[u8], count: usize, rows: &mut [Row]) -> Result<(), u16>
    requires { (count ≤ 512) × (count ≤ length rows.old) }
    ensures { RowsRead count text.now rows.old rows.new result }
{
    let mut rest = text;
    let mut line = 3u16;
    for i in 0..count {
        match row_at(rest) {
            Ok(seen) => {
                rows[i] = seen.row;
                rest = &rest[seen.length..];
            }
            Err(right) => return Err(line + right),
        }
        line += ROW_LINES as u16;
    }
    if !rest.is_empty() {
        return Err(line);
    }
    Ok(())
}

// Reads a text, where so many records are lent: the lines of the heading first, and then those of the rows.
pub fn parse(text: &[u8], lent: usize) -> Result<Parsed, Refusal>
    ensures { TextParsed text.now lent result }
{
    let Some(nodes) = line_at(text, b"nodes=") else {
        return Err(Refusal::of_row(20, 1));
    };
    let second = &text[nodes.length..];
    let Some(rows) = line_at(second, b"rows=") else {
        return Err(Refusal::of_row(20, 2));
    };
    let count = rows.value as usize;
    if 512 < count {
        return Err(Refusal::of_table(2));
    }
    if lent < count {
        return Err(Refusal::of_table(21));
    }
    let mut read = [BLANK; 512];
    match read_rows(&second[rows.length..], count, &mut read[..]) {
        Ok(()) => Ok(Parsed {
            head: Header {
                nodes: nodes.value,
                rows: rows.value,
            },
            rows: read,
        }),
        Err(line) => Err(Refusal::of_row(20, line)),
    }
}

// Reads a text into the lent rows: an accepted one fills as many as it has, and a refused one none.
pub fn read(text: &[u8], rows: &mut [Row]) -> Result<Header, Refusal>
    ensures { TextTaken text.now rows.old result rows.new }
{
    let parsed = parse(text, rows.len())?;
    let count = parsed.head.rows as usize;
    rows[..count].copy_from_slice(&parsed.rows[..count]);
    Ok(parsed.head)
}
