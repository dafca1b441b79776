// A catalogue of strings, line by line under fixed keys, and the verdict on it.
#![tactic(auto)]

ghost use Rattle.std.specs.Prelude.{◌≡◌, IfSome, IfOk, IfErr, Ok, Err, nat_eq, position, [], ◌<◌, length, get_or, take};
ghost use Rattle.text.specs.Text.{line_feed};
ghost use Rattle.catalogue.specs.Catalogue.{numbers, fields, keys, first_line, behind_line, string_refusal, line_refusal, lines_verdict};
ghost use Rattle.catalogue.specs.Catalogue.{labels_in, same, among, first_repeat, verdict_on};
ghost use Rattle.catalogue.specs.Steps.{lines, string_in, lines_on};

use table::Refusal;

// How many answers have a string, how many fields have a label, and how many lines that makes.
pub const ANSWERS: usize = 20;

pub const FIELDS: usize = 6;

const LINES: usize = ANSWERS + FIELDS;

// The numbers of the answers that have a string, in the order of their lines.
const NUMBERS: [u16; ANSWERS] = [
    0, 1, 2, 3, 4, 5, 6, 7, 8, 9, 10, 11, 12, 20, 21, 22, 30, 31, 32, 33,
];

// The keys in the order of their lines: one of each answer that has a string, then one of each field.
const KEYS: [&[u8]; LINES] = [
    b"r0=", b"r1=", b"r2=", b"r3=", b"r4=", b"r5=", b"r6=", b"r7=", b"r8=", b"r9=", b"r10=",
    b"r11=", b"r12=", b"r20=", b"r21=", b"r22=", b"r30=", b"r31=", b"r32=", b"r33=", b"f1=",
    b"f2=", b"f3=", b"f4=", b"f5=", b"f6=",
];

// The key of line i, counted from 0.
fn line_key(i: usize) -> &'static [u8]
    requires { i < lines }
    ensures { result.now ≡ get_or keys i [] }
{
    KEYS[i]
}

// The place of the first line feed.
fn first_feed(text: &[u8]) -> Option<usize>
    ensures { result ≡ position (λ b. nat_eq b line_feed) text.now }
{
    text.iter().position(|b| *b == b'\n')
}

// Where the first line ends: its line feed, or the end of the text.
fn line_end(text: &[u8]) -> usize
    ensures { result ≡ length (first_line text.now) }
{
    match first_feed(text) {
        Some(i) => i,
        None => text.len(),
    }
}

// What stands behind the first line.
fn behind_line(text: &[u8]) -> &[u8]
    ensures { result.now ≡ behind_line text.now }
{
    match first_feed(text) {
        Some(i) => &text[i + 1..],
        None => &[],
    }
}

// What is wrong with a string of so many bytes.
#[tactic(auto, using(std::proofs::lemmas::Bool::Decides::nat_tests), unfolding(crate::specs::Catalogue::string_refusal))]
fn string_refusal(bytes: usize) -> Result<(), u16>
    ensures { result ≡ string_refusal bytes }
{
    if bytes == 0 || 96 < bytes {
        return Err(31);
    }
    Ok(())
}

// What is wrong with the first line of a text that is to be line i.
fn line_refusal(text: &[u8], i: usize) -> Result<(), u16>
    requires { i < lines }
    ensures { result ≡ line_refusal (get_or keys i []) text.now }
{
    let end = line_end(text);
    let key = line_key(i);
    if end == text.len() || !text.starts_with(key) {
        return Err(30);
    }
    string_refusal(end - key.len())
}

// The refusal of the first bad line, and of whatever stands behind the last.
fn judge_lines(text: &[u8]) -> Result<(), Refusal>
    ensures { result ≡ lines_verdict keys 0 text.now }
{
    let mut rest = text;
    for i in 0..LINES {
        if let Err(number) = line_refusal(rest, i) {
            return Err(Refusal::of_row(number, (i + 1) as u16));
        }
        rest = behind_line(rest);
    }
    if !rest.is_empty() {
        return Err(Refusal::of_row(30, (LINES + 1) as u16));
    }
    Ok(())
}

// The text behind its first i lines.
fn lines_on(text: &[u8], i: usize) -> &[u8]
    ensures { result.now ≡ lines_on i text.now }
{
    let mut rest = text;
    for _ in 0..i {
        rest = behind_line(rest);
    }
    rest
}

// A text whose lines are all right.
#[derive(Clone, Copy)]
pub struct Lines<'a> {
    pub text: &'a [u8],
    ghost right: { lines_verdict keys 0 text.now ≡ Ok tt },
}

impl<'a> Lines<'a> {
    // Judges the lines of a text.
    fn of(text: &'a [u8]) -> Result<Lines<'a>, Refusal>
        ensures bad { IfErr result (λ r. lines_verdict keys 0 text.now ≡ Err r) }
        ensures good { IfOk result (λ l. l.text.now ≡ text.now) }
    {
        judge_lines(text)?;
        Ok(Lines { text })
    }

    // The string of line i.
    pub fn string(self, i: usize) -> &'a [u8]
        requires { i < lines }
        ensures { result.now ≡ string_in self.entry.text.now i }
    {
        let line = lines_on(self.text, i);
        &line[line_key(i).len()..line_end(line)]
    }

    // Whether label k, counted from 0, repeats an earlier one.
    fn repeats(self, k: usize) -> bool
        requires { k < length fields }
        ensures { result ≡ among (get_or (labels_in self.entry.text.now) k []) (take k (labels_in self.entry.text.now)) }
    {
        let label = self.string(ANSWERS + k);
        for j in 0..k {
            if label == self.string(ANSWERS + j) {
                return true;
            }
        }
        false
    }

    // The first label that repeats an earlier one, counted from 0. Before the first there is none to repeat.
    fn first_repeat(self) -> Option<usize>
        ensures first { result ≡ first_repeat (labels_in self.entry.text.now) (length fields) 0 }
        ensures inside { IfSome result (λ k. k < length fields) }
    {
        for k in 1..FIELDS {
            if self.repeats(k) {
                return Some(k);
            }
        }
        None
    }
}

// Judges a catalogue and hands on its lines: the first bad line decides, and equal labels come after all lines.
#[tactic(auto, unfolding(crate::specs::Catalogue::verdict_on, crate::specs::Catalogue::after_lines))]
pub fn open<'a>(text: &'a [u8]) -> Result<Lines<'a>, Refusal>
    ensures bad { IfErr result (λ r. verdict_on text.now ≡ Err r) }
    ensures good { IfOk result (λ l. (verdict_on text.now ≡ Ok tt) × (l.text.now ≡ text.now)) }
{
    let lines = Lines::of(text)?;
    match lines.first_repeat() {
        Some(k) => Err(Refusal::of_row(32, (ANSWERS + k + 1) as u16)),
        None => Ok(lines),
    }
}

// Judges a catalogue.
pub fn judge(text: &[u8]) -> Result<(), Refusal>
    ensures { result ≡ verdict_on text.now }
{
    open(text)?;
    Ok(())
}

// The place of a number among those that have a string.
pub fn place_of(number: u16) -> Option<usize>
    ensures { result ≡ position (λ n. nat_eq number n) numbers }
{
    NUMBERS.iter().position(|n| number == *n)
}
