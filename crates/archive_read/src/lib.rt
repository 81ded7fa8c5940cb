// Reading a frame of an archive into a lent picture.
#![tactic(auto)]

ghost use Rattle.std.specs.Prelude.{◌≡◌, length};
ghost use Rattle.refusal.specs.Numbers.{answered};
ghost use Rattle.archive_read.specs.Reading.{read_answer, read_picture};

use archive::{Archive, Entry};
use refusal::Refusal;

// Writes the shown lines of entry k to the front of the picture.
#[tactic(auto, unfolding(crate::specs::Reading::read_answer, crate::specs::Reading::read_picture, archive::specs::Answers::entry_answer, archive::specs::Answers::entry_refusal, refusal::specs::Numbers::answered, refusal::specs::Numbers::named))]
pub fn read(a: &[u8], k: u32, picture: &mut [u8]) -> Result<Entry, Refusal>
    ensures entry { result ≡ answered (read_answer a.now k (length picture.old)).refusal (read_answer a.now k (length picture.old)).entry }
    ensures lines { picture.new ≡ read_picture a.now k picture.old }
{
    if picture.len() != 23040 {
        return Err(Refusal::BadLength);
    }
    let e = Archive::open(a)?.entry(k)?;
    let from = e.offset as usize;
    let end = from + e.shown as usize * 90;
    byte_rows::copy(&a[from..end], picture, 0);
    Ok(e)
}
