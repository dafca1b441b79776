// Says an answer of the planner or the name of a field in the language of a catalogue.
#![tactic(auto)]

ghost use Rattle.std.specs.Prelude.{◌≡◌, cond, eqb};
ghost use Rattle.catalogue.specs.Catalogue.{numbers, fields, is_in};
ghost use Rattle.sentence.specs.Sentence.{spoken, sentence, label_of, named, SentencePut, LabelPut, AnswerPut};
ghost use Rattle.sentence.specs.Steps.{Fitted, Found};

use catalogue::{ANSWERS, FIELDS, Lines, open, place_of};
use planner::Summary;
use table::Refusal;
use text::{put_bytes, put_item, put_numeral, width_of};

// The refusal of a number or a field that has no string.
const NO_STRING: u16 = 33;

// What a sentence shows of a row or a slot: 0 for acceptance.
fn shown(number: u16, value: u16) -> u16
    ensures { result ≡ cond (eqb number 0) 0 value }
{
    if number == 0 { 0 } else { value }
}

// Writes a string, a space, the row, a space and the slot into an area that is long enough.
fn put_spoken(string: &[u8], row: u16, slot: u16, area: &mut [u8]) -> Result<usize, Refusal>
    ensures { Fitted (spoken string.now row slot) area.old result area.new }
{
    let length = string.len() + width_of(row as u32) + width_of(slot as u32) + 2;
    if area.len() < length {
        return Err(Refusal::of_table(22));
    }
    let second = put_bytes(area, 0, string);
    let third = put_item(area, second, b" ", row, b' ');
    put_numeral(area, third, slot);
    Ok(length)
}

// Writes a string into an area that is long enough.
fn put_string(string: &[u8], area: &mut [u8]) -> Result<usize, Refusal>
    ensures { Fitted string.now area.old result area.new }
{
    if area.len() < string.len() {
        return Err(Refusal::of_table(22));
    }
    put_bytes(area, 0, string);
    Ok(string.len())
}

// Writes the sentence of an answer, by the lines of a catalogue.
fn put_sentence(
    lines: Lines,
    number: u16,
    row: u16,
    slot: u16,
    area: &mut [u8],
) -> Result<usize, Refusal>
    ensures { Found (is_in number numbers) (sentence lines.entry.text.now number row slot) area.old result area.new }
{
    let place = place_of(number).ok_or(Refusal::of_table(NO_STRING))?;
    put_spoken(
        lines.string(place),
        shown(number, row),
        shown(number, slot),
        area,
    )
}

// Writes the label of a field, by the lines of a catalogue.
fn put_label(lines: Lines, field: u16, area: &mut [u8]) -> Result<usize, Refusal>
    ensures { Found (is_in field fields) (label_of lines.entry.text.now field) area.old result area.new }
{
    if field == 0 || FIELDS < field as usize {
        return Err(Refusal::of_table(NO_STRING));
    }
    put_string(lines.string(ANSWERS + field as usize - 1), area)
}

// Writes the sentence of an answer's number, row and slot: the catalogue is judged, then the number has to have a
// string, then the area room.
pub fn sentence(
    text: &[u8],
    number: u16,
    row: u16,
    slot: u16,
    area: &mut [u8],
) -> Result<usize, Refusal>
    ensures { SentencePut text.now number row slot area.old result area.new }
{
    put_sentence(open(text)?, number, row, slot, area)
}

// Writes the label of a field: the catalogue is judged, then the field has to have a label, then the area room.
pub fn label(text: &[u8], field: u16, area: &mut [u8]) -> Result<usize, Refusal>
    ensures { LabelPut text.now field area.old result area.new }
{
    put_label(open(text)?, field, area)
}

// What an answer of the planner names.
#[tactic(auto, unfolding(crate::specs::Sentence::named))]
fn named_by(answer: Result<Summary, Refusal>) -> Refusal
    ensures { result ≡ named answer }
{
    match answer {
        Ok(_) => Refusal::of_table(0),
        Err(refusal) => refusal,
    }
}

// Writes the sentence of an answer of the planner.
pub fn sentence_of(
    text: &[u8],
    answer: Result<Summary, Refusal>,
    area: &mut [u8],
) -> Result<usize, Refusal>
    ensures { AnswerPut text.now answer area.old result area.new }
{
    let named = named_by(answer);
    sentence(text, named.number, named.row, named.slot.0, area)
}
