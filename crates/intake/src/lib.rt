// Bytes taken from a reader into a lent area.
#![tactic(auto)]

ghost use Rattle.std.specs.Prelude.{◌≡◌, ℕ, ◌≤◌, ◌<◌, IfOk, OnErr, length, take};
ghost use Rattle.std.specs.Io.{ReadsAtMost};
ghost use Rattle.std.specs.Io.KnownBytes.{Consumes, IsAtEnd};

use std::io;
use std::io::Read;

// Fills the area from its front until it is full or the input ends, and gives how many bytes came. A read that fails ends
// it: what came before then stands in the front of the area, though it is not said how much that is. A `while`, since how
// many reads come is known to nobody, and std's own loops over a reader say nothing of what came before an error.
pub fn fill<R: Read>(reader: &mut R, area: &mut [u8]) -> io::Result<usize>
    ensures length { length area.new ≡ length area.old }
    ensures within { ReadsAtMost result area.new }
    ensures bytes { IfOk result (λ n. Consumes (R.remaining reader.old) (R.remaining reader.new) (take n area.new)) }
    ensures end { IfOk result (λ n. n < length area.new → IsAtEnd (R.remaining reader.new)) }
    ensures err { OnErr result ((n : ℕ) × (n ≤ length area.new)
        × Consumes (R.remaining reader.old) (R.remaining reader.new) (take n area.new)) }
{
    let mut at = 0;
    while at < area.len() {
        let count = reader.read(&mut area[at..])?;
        if count == 0 {
            return Ok(at);
        }
        at += count;
    }
    Ok(at)
}
