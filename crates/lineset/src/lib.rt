// Sets of scan lines: 256 line numbers as four 64-bit words, line 0 in the lowest bit of the first.
#![tactic(auto)]

ghost use Rattle.std.specs.Prelude.{◌≡◌, false, ◌&&◌, ◌||◌, ℕ, ◌-◌, ◌<◌, get_or};
ghost use Rattle.facts.specs.Tests.{first_of};
ghost use Rattle.lineset.specs.Lines.{member, set_of, count_of, shown_count, is_shown, shown_set};

use std::array;

#[repr(C)]
#[derive(Clone, Copy, Default)]
pub struct LineSet {
    pub words: [u64; 4],
}

// How many lines a frame rate shows: 256 at 50 Hz, 200 at 60 Hz, none at any other rate. (A rate is a number, as in C's record.)
#[tactic(auto, unfolding(crate::specs::Lines::shown_count))]
pub fn shown_count(rate: u8) -> u16
    ensures { result ≡ shown_count rate }
{
    match rate {
        50 => 256,
        60 => 200,
        _ => 0,
    }
}

impl LineSet {
    pub fn empty() -> LineSet
        ensures { result ≡ set_of (λ (L : ℕ). false) }
    {
        LineSet {
            words: [0, 0, 0, 0],
        }
    }

    // The lines that a frame rate shows.
    pub fn shown(rate: u8) -> LineSet
        ensures { result ≡ shown_set rate }
    {
        let words = match rate {
            50 => [u64::MAX; 4],
            60 => [u64::MAX, u64::MAX, u64::MAX, 0xff],
            _ => [0; 4],
        };
        LineSet { words }
    }

    #[tactic(auto, using(crate::proofs::Sets::member_past), unfolding(crate::specs::Lines::member))]
    pub fn contains(self, line: u16) -> bool
        ensures { result ≡ member self line }
    {
        self.words
            .get((line / 64) as usize)
            .is_some_and(|word| (word >> (line % 64)) % 2 == 1)
    }

    // The set whose words `f` makes of the two sets' words.
    fn by_words<F: Fn(u64, u64) -> u64>(self, other: LineSet, f: F) -> LineSet
        requires { F.IsAlwaysCallable f }
        ensures { (j : ℕ) → j < 4 → F.post f (get_or self.words j 0) (get_or other.words j 0) (get_or result.words j 0) }
    {
        LineSet {
            words: array::from_fn(|i| f(self.words[i], other.words[i])),
        }
    }

    pub fn union(self, other: LineSet) -> LineSet
        ensures { result ≡ set_of (λ (L : ℕ). member self L || member other L) }
    {
        self.by_words(other, |a, b| a | b)
    }

    // The lines that are in both sets.
    pub fn intersection(self, other: LineSet) -> LineSet
        ensures { result ≡ set_of (λ (L : ℕ). member self L && member other L) }
    {
        self.by_words(other, |a, b| a & b)
    }

    // The set with every line that a frame rate shows. On 50 Hz that is every line there is.
    pub fn with_shown(self, rate: u8) -> LineSet
        ensures { result ≡ set_of (λ (L : ℕ). member self L || is_shown rate L) }
    {
        self.union(LineSet::shown(rate))
    }

    pub fn count(self) -> u16
        ensures { result ≡ count_of (member self) 0 256 }
    {
        self.words.iter().map(|w| w.count_ones() as u16).sum()
    }

    // The first line of the set at or after n; none for n over 255.
    #[tactic(auto, using(facts::proofs::Searches::first_end))]
    pub fn next(self, n: u16) -> Option<u16>
        ensures { result ≡ first_of (member self) n (256 - n) }
    {
        let first = (n / 64) as usize;
        let word = self.words.get(first)? >> (n % 64);
        if word != 0 {
            return Some(n + word.trailing_zeros() as u16);
        }
        let later = (first + 1..4).find(|i| self.words[*i] != 0)?;
        Some(later as u16 * 64 + self.words[later].trailing_zeros() as u16)
    }
}
