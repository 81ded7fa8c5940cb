// How the test programs show a set of lines, a record and a step's reply: addresses, bytes and registers in hex, all else in decimal.
#![tactic(auto)]

use board::{Board, Boot, Clock};
use lineset::LineSet;
use std::fmt;
use step_rules::Answer;

// A set's four words, the lines from 0 up first.
#[derive(Clone, Copy)]
pub struct Words(pub LineSet);

impl fmt::Display for Words {
    fn fmt<W: fmt::Write>(&self, f: &mut fmt::Formatter<W>) -> fmt::Result {
        let [a, b, c, d] = self.0.words;
        write!(f, "{a:016x} {b:016x} {c:016x} {d:016x}")
    }
}

// Counter, beam, boot mode and the place in the boot stream.
#[derive(Clone, Copy)]
struct Times(Clock, Boot);

impl fmt::Display for Times {
    fn fmt<W: fmt::Write>(&self, f: &mut fmt::Formatter<W>) -> fmt::Result {
        let Times(clock, boot) = self;
        write!(f, "counter {} beam {}", clock.counter, clock.beam)?;
        write!(f, " boot {} at {}", boot.mode, boot.at)
    }
}

// All of a record but the dirty lines.
#[derive(Clone, Copy)]
pub struct Record(pub Board);

impl fmt::Display for Record {
    fn fmt<W: fmt::Write>(&self, f: &mut fmt::Formatter<W>) -> fmt::Result {
        let b = self.0;
        write!(
            f,
            "{} of {} rate {}",
            b.sizes.internal, b.sizes.total, b.rate
        )?;
        let [m0, m1, m2, m3] = b.paging.maps;
        write!(f, " maps {m0:02x} {m1:02x} {m2:02x} {m3:02x}")?;
        write!(f, " lock {:02x}", b.paging.lock)?;
        let v = b.video;
        write!(
            f,
            " F5 {:02x} F6 {:02x} F7 {:02x}",
            v.table, v.top, v.control
        )?;
        write!(f, " {}", Times(b.clock, b.boot))?;
        let d = b.disc;
        write!(f, " route {} line {}", d.route, d.line)?;
        write!(f, " count {} motor {}", d.terminal_count, d.motor)?;
        write!(f, " external {} driven {}", b.external, b.driven)?;
        write!(f, " bleeper {}", b.bleeper)
    }
}

// A step's reply, with what of the record moves most.
#[derive(Clone, Copy)]
pub struct Reply(pub Answer);

impl fmt::Display for Reply {
    fn fmt<W: fmt::Write>(&self, f: &mut fmt::Formatter<W>) -> fmt::Result {
        let Answer { board, reply } = self.0;
        let (byte, forwarded, refusal) = match reply.outcome {
            Ok(outcome) => (outcome.byte, outcome.forwarded, 0),
            Err(refusal) => (0, false, u8::from(refusal)),
        };
        write!(
            f,
            "{byte:02x} int {} nmi {}",
            u8::from(reply.int),
            u8::from(reply.nmi)
        )?;
        write!(f, " host {} refusal {refusal}", u8::from(forwarded))?;
        write!(f, " {}", Times(board.clock, board.boot))?;
        write!(
            f,
            " route {} dirty {}",
            board.disc.route,
            board.dirty.count()
        )
    }
}
