// An archive (document 02: a book of frames): whether it is sound, its count, its entries, and where a bench and number stand.
#![tactic(auto)]

ghost use Rattle.std.specs.Prelude.{◌≡◌, MatchResult, true, false};
ghost use Rattle.refusal.specs.Numbers.{answered};
ghost use Rattle.archive.specs.Sound.{sound};
ghost use Rattle.archive.specs.Answers.{entry_at, good_fields, count_answer, entry_answer, find_answer};

mod layout;
mod numbers;
mod opened;
mod unique;

pub use layout::Layout;
pub use numbers::{Entry, Header, Pair};
pub use opened::Archive;
use refusal::Refusal;

// By itself, and no result, so that a compiler makes one pass of two questions about the same bytes.
#[tactic(auto, unfolding(crate::specs::Sound::sound))]
pub fn is_sound(a: &[u8]) -> bool
    ensures { result ≡ sound a.now }
{
    Layout::read(a).is_some_and(|layout| layout.is_sound())
}

// Whether bench and shown lines are in range.
#[tactic(auto, unfolding(crate::specs::Answers::good_fields))]
pub fn good_fields(bench: u32, shown: u32) -> bool
    ensures { result ≡ good_fields bench shown }
{
    numbers::good_bench(bench) && numbers::good_shown(shown)
}

// Entry k as it stands, in whatever bytes; zeros where it is not wholly there.
#[tactic(auto, unfolding(crate::specs::Answers::entry_at))]
pub fn entry_at(a: &[u8], k: u32) -> Entry
    ensures { result ≡ entry_at a.now k }
{
    let from = 20 + 16 * k as usize;
    if a.len() < from + 16 {
        return Entry::default();
    }
    Entry::read(&a[from..])
}

// How many frames an archive holds.
#[tactic(auto, unfolding(crate::specs::Answers::count_answer, refusal::specs::Numbers::answered, refusal::specs::Numbers::named))]
pub fn count(a: &[u8]) -> Result<u32, Refusal>
    ensures { result ≡ answered (count_answer a.now).refusal (count_answer a.now).count }
{
    Ok(Archive::open(a)?.count())
}

// Entry k of a sound archive.
#[tactic(auto, unfolding(crate::specs::Answers::entry_answer, crate::specs::Answers::entry_refusal, refusal::specs::Numbers::answered, refusal::specs::Numbers::named))]
pub fn entry(a: &[u8], k: u32) -> Result<Entry, Refusal>
    ensures { result ≡ answered (entry_answer a.now k).refusal (entry_answer a.now k).entry }
{
    Archive::open(a)?.entry(k)
}

// Which entry of a sound archive has a bench and number.
#[tactic(auto, unfolding(crate::specs::Answers::find_answer, refusal::specs::Numbers::answered, refusal::specs::Numbers::named))]
pub fn find(a: &[u8], pair: Pair) -> Result<Option<u32>, Refusal>
    ensures { result ≡ answered (find_answer a.now pair.bench pair.number).refusal (find_answer a.now pair.bench pair.number).index }
{
    Ok(Archive::open(a)?.find(pair))
}
