// Sets of lines.
use board::Clock;
use lineset::{LineSet, shown_count};
use std::io;
use test_print::Words;

// Lines 0, 63, 64, 127, 200 and 255.
const SOME: LineSet = LineSet {
    words: [
        0x8000_0000_0000_0001,
        0x8000_0000_0000_0001,
        0,
        0x8000_0000_0000_0100,
    ],
};

// A set and its count.
pub(crate) fn counted(rt: &impl Print, name: &str, s: LineSet) -> io::Result<()> {
    println!(rt; "{name} {} count {}", Words(s), s.count())
}

pub(crate) fn sets(rt: &impl Print) -> io::Result<()> {
    let shown = LineSet::shown(60);
    counted(rt, "empty", LineSet::empty())?;
    counted(rt, "shown at 50", LineSet::shown(50))?;
    counted(rt, "shown at 60", shown)?;
    counted(rt, "shown at 55", LineSet::shown(55))?;
    counted(rt, "some", SOME)?;
    counted(rt, "some or shown at 60", SOME.union(shown))?;
    counted(rt, "some and shown at 60", SOME.intersection(shown))?;
    counted(rt, "some with shown at 50", SOME.with_shown(50))?;
    counted(rt, "some with shown at 60", SOME.with_shown(60))?;
    counted(rt, "some with shown at 55", SOME.with_shown(55))?;
    rates(rt)
}

// The scans of a frame, from beam 0 until it is 0 again, if it ever is.
fn scans(rate: u8) -> Option<u16> {
    let mut clock = Clock {
        counter: 0,
        beam: 0,
    };
    (1..1000).find(|_| {
        clock = clock.next(rate);
        clock.beam == 0
    })
}

fn rates(rt: &impl Print) -> io::Result<()> {
    print!(rt;
        "shown lines {} {} {}",
        shown_count(50),
        shown_count(60),
        shown_count(55)
    )?;
    println!(rt;
        " scans {} {}",
        scans(50).unwrap_or(0),
        scans(60).unwrap_or(0)
    )
}

// Whether a line is in a set, and the next from it.
fn line(rt: &impl Print, s: LineSet, n: u16) -> io::Result<()> {
    print!(rt; "line {n} has: {} next: ", u8::from(s.contains(n)))?;
    match s.next(n) {
        Some(at) => println!(rt; "{at}"),
        None => println!(rt; "none"),
    }
}

pub(crate) fn lines(rt: &impl Print) -> io::Result<()> {
    for n in [0, 1, 63, 64, 65, 128, 199, 201, 255, 256, 65535] {
        line(rt, SOME, n)?;
    }
    line(rt, LineSet::shown(60), 199)?;
    line(rt, LineSet::shown(60), 200)?;
    line(rt, LineSet::empty(), 0)
}
