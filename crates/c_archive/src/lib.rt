// By value, what the C interface gives for archives: packed numbers.
#![tactic(auto)]

ghost use Rattle.std.specs.Prelude.{◌+◌, ◌*◌, ◌≤◌, ◌≡◌, length, Option, Some, None, IfOk, MatchResult, MatchOption};
ghost use Rattle.refusal.specs.Numbers.{number};
ghost use Rattle.archive.specs.Sound.{count_of};
ghost use Rattle.archive.specs.Answers.{count_answer, entry_answer, find_answer};
ghost use Rattle.archive_read.specs.Reading.{read_answer, read_picture};
ghost use Rattle.archive_add.specs.Adding.{length_or, start_refusal, start_room, next_length, add_refusal, add_room};
ghost use Rattle.c_archive.specs.Replies.{reply, written_reply, count_reply, shown_code, entry_reply, index_reply, find_reply};

use archive::{Entry, Pair};
use archive_add::Label;
use refusal::Refusal;

// The reply of `c_numbers` has 16 bits of a number, and flags; here the number has 32.
#[tactic(auto, unfolding(crate::specs::Replies::reply))]
fn reply(number: u64, refusal: u8, more: u64) -> u64
    requires { (number ≤ 4294967295) × (more ≤ 16777215) }
    ensures { result ≡ reply number refusal more }
{
    number + (4294967296 * refusal as u64 + 1099511627776 * more)
}

fn refused(refusal: Refusal) -> u64
    ensures { result ≡ reply 0 (number refusal) 0 }
{
    reply(0, refusal.into(), 0)
}

// An answer's value and refusal number; where it is refused, what its caller gives for the value that is left unsaid.
fn parts<T: Copy>(answer: Result<T, Refusal>, unsaid: T) -> (T, u8)
    ensures { MatchResult answer (λ x. result ≡ (x, 0)) (λ r. result ≡ (unsaid, number r)) }
{
    match answer {
        Ok(value) => (value, 0),
        Err(refusal) => (unsaid, refusal.into()),
    }
}

fn written_reply(written: Result<usize, Refusal>) -> u64
    requires { IfOk written (λ n. n ≤ 4294967295) }
    ensures { MatchResult written (λ n. result ≡ reply n 0 0) (λ r. result ≡ reply 0 (number r) 0) }
{
    let (length, refusal) = parts(written, 0);
    reply(length as u64, refusal, 0)
}

// 1 for 200 shown lines, 2 for 256.
#[tactic(auto, unfolding(crate::specs::Replies::shown_code))]
fn shown_code(shown: u32) -> u64
    ensures { (result ≡ shown_code shown) × (result ≤ 2) }
{
    match shown {
        256 => 2,
        200 => 1,
        _ => 0,
    }
}

fn entry_read_reply(entry: Result<Entry, Refusal>) -> u64
    requires { IfOk entry (λ e. e.bench ≤ 65535) }
    ensures { MatchResult entry (λ e. result ≡ reply e.number 0 (e.bench + 65536 * shown_code e.shown)) (λ r. result ≡ reply 0 (number r) 0) }
{
    match entry {
        Ok(e) => {
            let code = shown_code(e.shown);
            reply(e.number as u64, 0, e.bench as u64 + 65536 * code)
        }
        Err(refusal) => refused(refusal),
    }
}

pub fn start_reply(room: &mut [u8]) -> u64
    ensures { (result ≡ written_reply (length_or 20 (start_refusal (length room.old)))) × (room.new ≡ start_room room.old) }
{
    written_reply(archive_add::start(room))
}

pub fn count_reply(a: &[u8]) -> u64
    ensures { result ≡ count_reply (count_answer a.now) }
{
    let (count, refusal) = parts(archive::count(a), 0);
    reply(count as u64, refusal, 0)
}

pub fn entry_reply(a: &[u8], k: u32) -> u64
    ensures { result ≡ entry_reply (entry_answer a.now k) }
{
    entry_read_reply(archive::entry(a, k))
}

pub fn find_reply(a: &[u8], bench: u32, number: u32) -> u64
    ensures { result ≡ find_reply (find_answer a.now bench number) }
{
    let pair = Pair { bench, number };
    let (index, refusal) = parts(archive::find(a, pair), None);
    match index {
        Some(k) => reply(k as u64 + 1048576, refusal, 0),
        None => reply(0, refusal, 0),
    }
}

pub fn read_reply(a: &[u8], k: u32, picture: &mut [u8]) -> u64
    ensures { (result ≡ entry_reply (read_answer a.now k (length picture.old))) × (picture.new ≡ read_picture a.now k picture.old) }
{
    entry_read_reply(archive_read::read(a, k, picture))
}

pub fn add_reply(
    a: &[u8],
    bench: u32,
    number: u32,
    shown: u32,
    picture: &[u8],
    room: &mut [u8],
) -> u64
    ensures { (result ≡ written_reply (length_or (next_length (count_of a.now)) (add_refusal a.now bench number shown (length picture.now) (length room.old)))) × (room.new ≡ add_room a.now bench number shown picture.now room.old) }
{
    let label = Label {
        bench,
        number,
        shown,
    };
    written_reply(archive_add::add(a, label, picture, room))
}
