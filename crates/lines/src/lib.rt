// Reads at the front of a text: a number behind a key, digit by digit, up to the mark that ends it, a line, and the
// lines of a row.
#![tactic(auto)]

ghost use Rattle.std.specs.Prelude.{◌≡◌, false};
ghost use Rattle.text.specs.Text.{is_digit};
ghost use Rattle.lines.specs.Items.{figures_in, item_seen, line_seen, row_seen};

use table::Row;
use text::{ROW_LINES, row_by, row_key, width_of};

// The digits at the front of a text: the number that they say, and how many they are.
#[derive(Clone, Copy)]
pub struct Figures {
    pub value: u32,
    pub count: usize,
}

// A number behind a key: its value, and the number of bytes from the key up to and with its mark.
#[derive(Clone, Copy)]
pub struct Item {
    pub value: u16,
    pub length: usize,
}

// The lines of a row: the row, and the number of their bytes.
#[derive(Clone, Copy)]
pub struct RowSeen {
    pub row: Row,
    pub length: usize,
}

// The digits at the front of a text, five at most.
fn figures_at(text: &[u8]) -> Figures
    ensures { result ≡ figures_in text.now }
{
    let most = text.len().min(5);
    let mut value = 0u32;
    for i in 0..most {
        let b = text[i];
        if !b.is_ascii_digit() {
            return Figures { value, count: i };
        }
        value = value * 10 + (b - b'0') as u32;
    }
    Figures { value, count: most }
}

// The number behind a key at the front of a text: exactly the key, a numeral of 0 to 65,535 with no leading zero, and a
// mark that is no digit.
pub fn item_at(text: &[u8], key: &[u8], mark: u8) -> Option<Item>
    requires { is_digit mark ≡ false }
    ensures { result ≡ item_seen key.now mark text.now }
{
    if !text.starts_with(key) {
        return None;
    }
    let figures = figures_at(&text[key.len()..]);
    if 65535 < figures.value || figures.count != width_of(figures.value) {
        return None;
    }
    let end = key.len() + figures.count;
    if text.len() <= end || text[end] != mark {
        return None;
    }
    Some(Item {
        value: figures.value as u16,
        length: end + 1,
    })
}

// The line of a key at the front of a text: an item whose mark is a line feed.
pub fn line_at(text: &[u8], key: &[u8]) -> Option<Item>
    ensures { result ≡ line_seen key.now text.now }
{
    item_at(text, key, b'\n')
}

// The lines of a row at the front of a text, or how many are right before the first that is wrong.
pub fn row_at(text: &[u8]) -> Result<RowSeen, u16>
    ensures { result ≡ row_seen text.now }
{
    let mut values = [0u16; ROW_LINES];
    let mut length = 0;
    for j in 0..ROW_LINES {
        let Some(item) = line_at(&text[length..], &row_key(j)) else {
            return Err(j as u16);
        };
        values[j] = item.value;
        length += item.length;
    }
    Ok(RowSeen {
        row: row_by(values),
        length,
    })
}
