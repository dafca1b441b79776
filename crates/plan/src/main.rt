// Plans a table read from standard input.
#![tactic(auto)]

ghost use Rattle.std.specs.Prelude.{OnOk, IfSome};
ghost use Rattle.std.specs.Io.KnownBytes.{Appends};
ghost use Rattle.report.specs.Report.{output_of};

use std::io;
use std::io::{Read, Write};

// Reads a text, plans its table, and writes what that comes to. Of a longer text the front alone is read.
fn plan_text<R: Read, W: Write>(reader: &mut R, writer: &mut W) -> io::Result<()>
    ensures { OnOk result (IfSome (R.remaining reader.old)
        (λ text. Appends (W.contents writer.old) (W.contents writer.new) (output_of text))) }
{
    let mut text = [0u8; 24576]; // a longer input is read no further, since the rest changes no answer
    let count = intake::fill(reader, &mut text)?;
    let mut output = [0u8; 212992]; // room for the longest output
    let length = report::respond(&text[..count], &mut output);
    writer.write_all(&output[..length])
}

// Reads a table from standard input, plans it, and prints the answer.
fn main(rt: HostRuntime) -> io::Result<()> {
    plan_text(&mut rt.stdin(), &mut io::writer(&rt))
}
