// The archive that is held, the room for the next and the picture, and the calls on them. Each call prints a line: what was asked for,
// and the answer.
use crate::lent::Lent;
use crate::op::Op;
use crate::print::{Fields, print_refusal};
use archive::{Entry, Pair};
use archive_add::Label;
use refusal::Refusal;
use std::io;
use test_bytes::{fill, sum};

// `written` is the length of the archive that was written last; the room's own is what the next call is lent.
#[derive(Drop)]
pub(crate) struct Desk<'a> {
    held: Lent<'a>,
    room: Lent<'a>,
    picture: Lent<'a>,
    written: usize,
}

fn print_entry(rt: &impl Print, answer: Result<Entry, Refusal>) -> io::Result<()> {
    print!(rt; ": {}", Fields(answer.unwrap_or_default()))?;
    print_refusal(rt, answer)
}

fn in_range(rt: &impl Print, bench: u32, shown: u32) -> io::Result<()> {
    let good = archive::good_fields(bench, shown);
    println!(rt; "bench {bench} shown {shown}: in range {}", u8::from(good))
}

impl<'a> Desk<'a> {
    pub(crate) fn new(held: &'a mut [u8], room: &'a mut [u8], picture: &'a mut [u8]) -> Desk<'a> {
        Desk {
            held: Lent::new(held),
            room: Lent::new(room),
            picture: Lent::new(picture),
            written: 0,
        }
    }

    fn lend_picture(&mut self, length: usize, first: u8) {
        self.picture.lend(length);
        fill(self.picture.bytes_mut(), first);
    }

    // The answer, after a sum of the room that was written and one of the room behind it.
    fn print_written(&mut self, rt: &impl Print, answer: Result<usize, Refusal>) -> io::Result<()> {
        self.written = answer.unwrap_or(0);
        let room = self.room.bytes();
        let (front, behind) = room.split_at(self.written.min(room.len()));
        print!(rt;
            ": length {} sum {} behind {}",
            self.written,
            sum(front),
            sum(behind)
        )?;
        print_refusal(rt, answer)
    }

    fn start(&mut self, rt: &impl Print) -> io::Result<()> {
        let room = self.room.bytes_mut();
        fill(room, 91);
        let answer = archive_add::start(room);
        print!(rt; "start in {}", room.len())?;
        self.print_written(rt, answer)
    }

    fn add(&mut self, rt: &impl Print, l: Label) -> io::Result<()> {
        let picture = self.picture.bytes();
        let room = self.room.bytes_mut();
        fill(room, 91);
        let answer = archive_add::add(self.held.bytes(), l, picture, room);
        print!(rt; "add {} {} {}", l.bench, l.number, l.shown)?;
        print!(rt; " of {} in {}", picture.len(), room.len())?;
        self.print_written(rt, answer)
    }

    fn read(&mut self, rt: &impl Print, k: u32) -> io::Result<()> {
        let picture = self.picture.bytes_mut();
        let answer = archive_read::read(self.held.bytes(), k, picture);
        print!(rt; "read {k} in {} sum {}", picture.len(), sum(picture))?;
        print_entry(rt, answer)
    }

    fn print_count(&self, rt: &impl Print) -> io::Result<()> {
        let a = self.held.bytes();
        let count = archive::count(a);
        print!(rt; ": sound {}", u8::from(archive::is_sound(a)))?;
        print!(rt; " count {}", count.unwrap_or(0))?;
        print_refusal(rt, count)
    }

    fn count(&self, rt: &impl Print) -> io::Result<()> {
        print!(rt; "length {}", self.held.bytes().len())?;
        self.print_count(rt)
    }

    // The bits of a mask turned over in one byte; past the end nothing is.
    fn change(&mut self, at: usize, mask: u8) {
        if let Some(byte) = self.held.bytes_mut().get_mut(at) {
            *byte ^= mask;
        }
    }

    // The count with some bits of one byte turned over, which then are turned back.
    fn count_changed(&mut self, rt: &impl Print, at: usize, mask: u8) -> io::Result<()> {
        self.change(at, mask);
        print!(rt; "byte {at} ^ {mask:02x}")?;
        self.print_count(rt)?;
        self.change(at, mask);
        Ok(())
    }

    fn entry(&self, rt: &impl Print, k: u32) -> io::Result<()> {
        print!(rt; "entry {k}")?;
        print_entry(rt, archive::entry(self.held.bytes(), k))
    }

    // An entry in whatever bytes.
    fn stands(&self, rt: &impl Print, k: u32) -> io::Result<()> {
        println!(rt;
            "stands {k}: {}",
            Fields(archive::entry_at(self.held.bytes(), k))
        )
    }

    fn find(&self, rt: &impl Print, pair: Pair) -> io::Result<()> {
        let found = archive::find(self.held.bytes(), pair);
        print!(rt; "find {} {}: ", pair.bench, pair.number)?;
        match found {
            Ok(Some(k)) => print!(rt; "at {k}")?,
            _ => print!(rt; "nothing")?,
        }
        print_refusal(rt, found)
    }

    // The bytes from one index up to another, or the last.
    fn bytes(&self, rt: &impl Print, from: usize, end: usize) -> io::Result<()> {
        let a = self.held.bytes();
        let end = end.min(a.len());
        print!(rt; "bytes {from} to {end}:")?;
        for byte in a.get(from..end).unwrap_or(&[]) {
            print!(rt; " {byte:02x}")?;
        }
        println!(rt; "")
    }

    pub(crate) fn take(&mut self, rt: &impl Print, op: Op) -> io::Result<()> {
        match op {
            Op::LendHeld(n) => self.held.lend(n),
            Op::LendRoom(n) => self.room.lend(n),
            Op::LendPicture { length, first } => self.lend_picture(length, first),
            Op::Start => self.start(rt)?,
            Op::Add(label) => self.add(rt, label)?,
            Op::Hold => self.held.hold(&self.room, self.written),
            Op::Change { at, mask } => self.change(at, mask),
            Op::CountChanged { at, mask } => self.count_changed(rt, at, mask)?,
            Op::Count => self.count(rt)?,
            Op::Entry(k) => self.entry(rt, k)?,
            Op::Stands(k) => self.stands(rt, k)?,
            Op::Find(pair) => self.find(rt, pair)?,
            Op::Read(k) => self.read(rt, k)?,
            Op::InRange { bench, shown } => in_range(rt, bench, shown)?,
            Op::Bytes { from, end } => self.bytes(rt, from, end)?,
            Op::Title | Op::Nothing => {}
        }
        Ok(())
    }
}
