// A sound archive, and what is asked of it.
ghost use Rattle.std.specs.Prelude.{◌≡◌, MatchResult, true, false, cond, ltb, Ok, Err};
ghost use Rattle.refusal.specs.declared.Refusal.TheVariants.{BadArchive, BadFrame};
ghost use Rattle.facts.specs.Tests.{first_of};
ghost use Rattle.archive.specs.Sound.{count_of, entry_of, frame_at, has_pair, sound};

use crate::layout::Layout;
use crate::numbers::{Entry, Pair};
use crate::{is_sound, unique};
use refusal::Refusal;

#[derive(Clone, Copy)]
pub struct Archive<'a> {
    pub layout: Layout<'a>,
    pub ghost is_sound: { sound layout.bytes.now ≡ true },
}

impl<'a> Archive<'a> {
    #[tactic(auto, unfolding(crate::specs::Sound::sound))]
    pub fn open(bytes: &'a [u8]) -> Result<Archive<'a>, Refusal>
        ensures { MatchResult result (λ s. (s.layout.bytes.now ≡ bytes.now) × (sound bytes.now ≡ true)) (λ e. (e ≡ BadArchive) × (sound bytes.now ≡ false)) }
    {
        if !is_sound(bytes) {
            return Err(Refusal::BadArchive);
        }
        let layout = Layout::read(bytes).ok_or(Refusal::BadArchive)?;
        Ok(Archive { layout })
    }

    pub fn count(&self) -> u32
        ensures { result ≡ count_of self.now.layout.bytes.now }
    {
        self.layout.count as u32
    }

    pub fn entry(&self, k: u32) -> Result<Entry, Refusal>
        ensures { result ≡ cond (ltb k (count_of self.now.layout.bytes.now)) (Ok (entry_of self.now.layout.bytes.now k)) (Err BadFrame) }
    {
        if k >= self.count() {
            return Err(Refusal::BadFrame);
        }
        Ok(self.layout.entry(k as usize))
    }

    // Which entry has a bench and number.
    pub fn find(&self, pair: Pair) -> Option<u32>
        ensures { result ≡ first_of (has_pair (frame_at self.now.layout.bytes.now) pair.bench pair.number) 0 (count_of self.now.layout.bytes.now) }
    {
        let k = unique::index_of(self.layout.rows(), pair)?;
        Some(k as u32)
    }
}
