// The C interface of archives.
ghost use Rattle.std.specs.Prelude.{◌≡◌, length};
ghost use Rattle.archive.specs.Sound.{count_of};
ghost use Rattle.archive.specs.Answers.{count_answer, entry_answer, find_answer};
ghost use Rattle.archive_read.specs.Reading.{read_answer, read_picture};
ghost use Rattle.archive_add.specs.Adding.{length_or, start_refusal, start_room, next_length, add_refusal, add_room};
ghost use Rattle.c_archive.specs.Replies.{written_reply, count_reply, entry_reply, find_reply};

use c_archive::{add_reply, count_reply, entry_reply, find_reply, read_reply, start_reply};

// Writes the archive of no frames to the front of the room.
#[unsafe(no_mangle)]
pub extern "C" fn joyce_archive_start(room: &mut [u8]) -> u64
    ensures { (result ≡ written_reply (length_or 20 (start_refusal (length room.old)))) × (room.new ≡ start_room room.old) }
{
    start_reply(room)
}

// How many frames an archive holds.
#[unsafe(no_mangle)]
pub extern "C" fn joyce_archive_count(archive: &[u8]) -> u64
    ensures { result ≡ count_reply (count_answer archive.now) }
{
    count_reply(archive)
}

// Entry k.
#[unsafe(no_mangle)]
pub extern "C" fn joyce_archive_entry(archive: &[u8], k: u32) -> u64
    ensures { result ≡ entry_reply (entry_answer archive.now k) }
{
    entry_reply(archive, k)
}

// Which entry has a bench and number.
#[unsafe(no_mangle)]
pub extern "C" fn joyce_archive_find(archive: &[u8], bench: u32, number: u32) -> u64
    ensures { result ≡ find_reply (find_answer archive.now bench number) }
{
    find_reply(archive, bench, number)
}

// Writes the shown lines of entry k to the front of the picture.
#[unsafe(no_mangle)]
pub extern "C" fn joyce_archive_read(archive: &[u8], k: u32, picture: &mut [u8]) -> u64
    ensures { (result ≡ entry_reply (read_answer archive.now k (length picture.old))) × (picture.new ≡ read_picture archive.now k picture.old) }
{
    read_reply(archive, k, picture)
}

// Writes the next archive, the frame its last, to the front of the room.
#[unsafe(no_mangle)]
pub extern "C" fn joyce_archive_add(
    archive: &[u8],
    bench: u32,
    number: u32,
    shown: u32,
    picture: &[u8],
    room: &mut [u8],
) -> u64
    ensures { (result ≡ written_reply (length_or (next_length (count_of archive.now)) (add_refusal archive.now bench number shown (length picture.now) (length room.old)))) × (room.new ≡ add_room archive.now bench number shown picture.now room.old) }
{
    add_reply(archive, bench, number, shown, picture, room)
}
