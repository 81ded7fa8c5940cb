// Patterns that the test programs fill memory with, and sums over it.
#![tactic(auto)]

ghost use Rattle.std.specs.Prelude.{◌≡◌, ◌<◌, ℕ, length, get_or};
ghost use Rattle.test_bytes.specs.Patterns.{pattern, sum};

// The byte of a pattern at an index.
fn pattern(first: u8, at: usize) -> u8
    ensures { result ≡ pattern first at }
{
    ((at % 256 * 167 + at / 256 % 256 * 3 + first as usize) % 256) as u8
}

pub fn fill(bytes: &mut [u8], first: u8)
    ensures len { length bytes.new ≡ length bytes.old }
    ensures filled { (k : ℕ) → k < length bytes.old → get_or bytes.new k 0 ≡ pattern first k }
{
    for (at, byte) in bytes.iter_mut().enumerate() {
        *byte = pattern(first, at);
    }
}

// A sum in which the order of the bytes counts.
pub fn sum(bytes: &[u8]) -> u64
    ensures { result ≡ sum bytes.now }
{
    bytes.iter().fold(
        1,
        |s, &byte| (s % 1000000007 * 257 + u64::from(byte)) % 1000000007,
    )
}
