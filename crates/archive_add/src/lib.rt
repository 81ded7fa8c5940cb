// Archives written in lent room: the archive of no frames, and the next one with a frame more.
#![tactic(auto)]

ghost use Rattle.std.specs.Prelude.{◌≡◌, ◌&&◌, length, MatchResult};
ghost use Rattle.refusal.specs.Numbers.{answered, named};
ghost use Rattle.archive.specs.Sound.{count_of, frame_at, is_new};
ghost use Rattle.archive.specs.Answers.{good_fields};
ghost use Rattle.archive_add.specs.Adding.{start_refusal, start_room, next_length, room_for, add_refusal, add_room};

mod next;
mod parts;

use archive::{Archive, Pair};
use refusal::Refusal;

// What a call says of the frame that it adds.
#[derive(Clone, Copy, PartialEq, Eq, Debug)]
pub struct Label {
    pub bench: u32,
    pub number: u32,
    pub shown: u32,
}

impl Label {
    fn pair(self) -> Pair
        ensures { result ≡ record { bench = self.bench; number = self.number } }
    {
        Pair {
            bench: self.bench,
            number: self.number,
        }
    }
}

// Writes the archive of no frames to the front of the room, and gives its length.
#[tactic(auto, unfolding(crate::specs::Adding::start_refusal, crate::specs::Adding::start_room, refusal::specs::Numbers::answered, refusal::specs::Numbers::named))]
pub fn start(room: &mut [u8]) -> Result<usize, Refusal>
    ensures length { result ≡ answered (start_refusal (length room.old)) 20 }
    ensures room { room.new ≡ start_room room.old }
{
    if room.len() < 20 {
        return Err(Refusal::NoRoom);
    }
    parts::put_header(room, 0);
    Ok(20)
}

// Whether an archive of n has a next, and it fits the room.
#[tactic(auto, unfolding(crate::specs::Adding::room_for, crate::specs::Adding::next_length))]
fn has_room(n: usize, room: usize) -> bool
    ensures { result ≡ room_for n room }
{
    n < 1000 && 20 + 23056 * (n + 1) <= room
}

// Whether the fields of a frame are in range, and its pair is not there yet.
#[tactic(auto, using(archive::proofs::Pairs::none_new))]
fn is_new(archive: &Archive, label: Label) -> bool
    ensures { result ≡ (good_fields label.bench label.shown && is_new (frame_at archive.now.layout.bytes.now) label.bench label.number (count_of archive.now.layout.bytes.now)) }
{
    archive::good_fields(label.bench, label.shown) && archive.find(label.pair()).is_none()
}

// The archive, if the frame may be added to it.
#[tactic(auto, unfolding(crate::specs::Adding::add_refusal, refusal::specs::Numbers::named))]
fn open_for<'a>(a: &'a [u8], label: Label, size: usize, room: usize) -> Result<Archive<'a>, Refusal>
    ensures { MatchResult result (λ s. (s.layout.bytes.now ≡ a.now) × (add_refusal a.now label.bench label.number label.shown size room ≡ 0)) (λ e. (add_refusal a.now label.bench label.number label.shown size room ≡ 0 → ⊥) × (named (add_refusal a.now label.bench label.number label.shown size room) ≡ e)) }
{
    if size != 23040 {
        return Err(Refusal::BadLength);
    }
    let archive = Archive::open(a)?;
    if !is_new(&archive, label) {
        return Err(Refusal::BadFrame);
    }
    if !has_room(archive.layout.count, room) {
        return Err(Refusal::NoRoom);
    }
    Ok(archive)
}

// Writes the next archive, the frame its last, to the front of the room, and gives its length.
#[tactic(auto, unfolding(crate::specs::Adding::add_room, refusal::specs::Numbers::answered))]
pub fn add(a: &[u8], label: Label, picture: &[u8], room: &mut [u8]) -> Result<usize, Refusal>
    ensures length { result ≡ answered (add_refusal a.now label.bench label.number label.shown (length picture.now) (length room.old)) (next_length (count_of a.now)) }
    ensures room { room.new ≡ add_room a.now label.bench label.number label.shown picture.now room.old }
{
    let archive = open_for(a, label, picture.len(), room.len())?;
    next::put_next(&archive, label, picture, room);
    Ok(20 + 23056 * (archive.layout.count + 1))
}
