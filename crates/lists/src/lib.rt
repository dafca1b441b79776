// Plain lists of numbers: cleared, summed, the largest entry and the first place of one; and the lower of two numbers.
#![tactic(auto)]

ghost use Rattle.std.specs.Prelude.{◌≡◌, ℕ, ◌≤◌, min, length, replicate};
ghost use Rattle.lists.specs.Lists.{total, largest, first_place};

// The lower of two numbers.
pub fn lower(a: usize, b: usize) -> usize
    ensures { result ≡ min a b }
{
    a.min(b)
}

// Sets every entry to 0.
pub fn clear(part: &mut [u16])
    ensures { part.new ≡ replicate {A = ℕ} (length part.old) 0 }
{
    part.fill(0);
}

// The sum of all entries; up to 65,536 of them fit.
pub fn sum(part: &[u16]) -> u32
    requires { length part.now ≤ 65536 }
    ensures { result ≡ total part.now }
{
    part.iter().map(|x| *x as u32).sum()
}

// The largest entry, 0 where there is none.
pub fn greatest(part: &[u16]) -> u16
    ensures { result ≡ largest part.now }
{
    part.iter().copied().max().unwrap_or(0)
}

// The first place of a number, and the number of entries where it has none: whoever asks for the place of the largest
// entry has one wherever there is an entry.
pub fn first_place(part: &[u16], x: u16) -> usize
    ensures { result ≡ first_place x part.now }
{
    part.iter().position(|y| x == *y).unwrap_or(part.len())
}

// A list of N entries, all 0.
pub fn zeros<const N: usize>() -> [u16; N]
    ensures { result ≡ replicate {A = ℕ} N 0 }
{
    [0; N]
}
