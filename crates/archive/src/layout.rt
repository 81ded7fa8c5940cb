// Where entries and pictures stand in bytes whose header is sound, and whether all of these are sound.
ghost use Rattle.std.specs.Prelude.{◌+◌, ◌*◌, ◌<◌, ◌≤◌, length, ◌&&◌, ◌≡◌, ℕ, true, false, get_or, [], MatchOption};
ghost use Rattle.facts.specs.Tests.{every};
ghost use Rattle.archive.specs.Format.{picture_offset};
ghost use Rattle.archive.specs.Sound.{count_of, entry_of, entry_good, header_sound, is_zero, rest_zero, entry_sound};
ghost use Rattle.archive.specs.Rows.{row_at};

use crate::numbers::{Entry, Header};
use crate::unique::all_fresh;

// The bytes of an entry.
pub(crate) type Row = [u8; 16];

// Bytes that a header, so many entries and as many pictures fill.
#[derive(Clone, Copy)]
pub struct Layout<'a> {
    pub bytes: &'a [u8],
    pub count: usize,
    pub ghost counted: { count ≡ count_of bytes.now },
    pub ghost few: { count ≤ 1000 },
    pub ghost filled: { length bytes.now ≡ 20 + 23056 * count },
}

// Whether bytes are zero. It is not left early, so that a run takes many bytes at once.
fn all_zero(bytes: &[u8]) -> bool
    ensures { result ≡ every (is_zero bytes.now 0) 0 (length bytes.now) }
{
    let mut seen = 0;
    for byte in bytes {
        seen |= *byte;
    }
    seen == 0
}

impl<'a> Layout<'a> {
    // By the header of the bytes, where that is sound.
    pub(crate) fn read(bytes: &'a [u8]) -> Option<Layout<'a>>
        ensures { MatchOption result (header_sound bytes.now ≡ false) (λ s. (s.bytes.now ≡ bytes.now) × (header_sound bytes.now ≡ true)) }
    {
        if bytes.len() < 20 {
            return None;
        }
        let header = Header::read(bytes);
        if !header.is_good(bytes.len()) {
            return None;
        }
        Some(Layout {
            bytes,
            count: header.count as usize,
        })
    }

    // Its entries.
    pub(crate) fn rows(&self) -> &'a [Row]
        ensures count { length result.now ≡ self.now.count }
        ensures each { (k : ℕ) → k < self.now.count → get_or result.now k [] ≡ row_at self.now.bytes.now k }
    {
        let (rows, _) = self.bytes[20..].as_chunks();
        &rows[..self.count]
    }

    pub(crate) fn entry(&self, k: usize) -> Entry
        requires { k < self.now.count }
        ensures { result ≡ entry_of self.now.bytes.now k }
    {
        Entry::read(&self.rows()[k])
    }

    // The fields of entry k, and the unshown lines of its picture.
    fn row_sound(&self, k: usize) -> bool
        requires { k < self.now.count }
        ensures { result ≡ (entry_good (entry_of self.now.bytes.now k) (picture_offset (count_of self.now.bytes.now) k) && rest_zero self.now.bytes.now k) }
    {
        let e = self.entry(k);
        let from = 20 + 16 * self.count + 23040 * k;
        if !e.is_good(from) {
            return false;
        }
        let used = e.shown as usize * 90;
        let start = from + used;
        all_zero(&self.bytes[start..start + (23040 - used)])
    }

    // Its entries and pictures.
    pub(crate) fn is_sound(&self) -> bool
        ensures { result ≡ every (entry_sound self.now.bytes.now) 0 self.now.count }
    {
        for k in 0..self.count {
            if !self.row_sound(k) {
                return false;
            }
        }
        all_fresh(self.rows())
    }
}
