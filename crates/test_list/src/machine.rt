// The record, the RAM and the picture that the list works on. Each call is made here, and its answer checked.
use crate::op::Op;
use crate::pixels::Pixels;
use crate::tally::{Tally, count};
use board::Board;
use picture_compare::first_difference;
use refusal::Refusal;
use std::io;
use step::Step;
use test_bytes::{fill, sum};

// `full` is for the full draws that the picture is held against.
#[derive(Drop)]
pub(crate) struct Machine {
    board: Board,
    ram: [u8; 131072],
    picture: [u8; 23040],
    full: [u8; 23040],
    tally: Tally,
}

impl Machine {
    pub(crate) fn new() -> Machine {
        Machine {
            board: test_board::start(50),
            ram: [0; 131072],
            picture: [0; 23040],
            full: [0; 23040],
            tally: Tally::default(),
        }
    }

    fn power_on(&mut self, rate: u8) {
        fill(&mut self.ram, 167);
        fill(&mut self.picture, 59);
        fill(&mut self.full, 59);
        self.board = test_board::start(rate);
        self.tally = Tally::default();
    }

    fn step(&mut self, s: Step) {
        let answer = step::step(self.board, s, &mut self.ram, b"\x3e\x40\xd3\xf7");
        self.board = answer.board;
        count(&mut self.tally.steps, true);
        count(&mut self.tally.refused, answer.reply.outcome.is_err());
    }

    // Whether a full draw gives the same picture. Its shown lines hold other bytes first; its unshown lines have held, since
    // power-on, the pattern that the picture started with.
    #[tactic(auto, unfolding(lineset::specs::Lines::shown_count))]
    fn is_whole(&mut self) -> bool {
        let shown = 90 * lineset::shown_count(self.board.rate) as usize;
        fill(&mut self.full[..shown], 200);
        let drawn = picture::draw(self.board, &self.ram, &mut self.full);
        drawn.is_ok() && first_difference(&self.picture, &self.full) == Ok(None)
    }

    // The count must be that of the dirty lines before, and none may be left.
    fn refresh(&mut self) {
        let before = self.board;
        match picture::refresh(before, &self.ram, &mut self.picture) {
            Ok(after) => {
                let right = after.count == before.dirty.count()
                    && after.board.dirty.count() == 0
                    && after.floating == (before.driven == 0);
                self.board = after.board;
                self.tally.lines = self.tally.lines.wrapping_add(after.count.into());
                count(&mut self.tally.wrong, !right);
            }
            Err(_) => count(&mut self.tally.wrong, true),
        }
        let whole = self.is_whole();
        count(&mut self.tally.refreshes, true);
        count(&mut self.tally.differed, !whole);
    }

    // A call that must be refused for a length, and must leave the lent bytes as they were.
    fn refused(&mut self, refusal: Option<Refusal>, same: bool) {
        count(&mut self.tally.refused, true);
        count(
            &mut self.tally.spoilt,
            !(refusal == Some(Refusal::BadLength) && same),
        );
    }

    // A step that is lent a RAM of the wrong length: no line may become dirty.
    fn short_step(&mut self, s: Step) {
        let lent = &mut self.ram[1..];
        let before = sum(lent);
        let answer = step::step(self.board, s, lent, &[]);
        let same = sum(lent) == before && answer.board.dirty.count() == self.board.dirty.count();
        self.board = answer.board;
        self.refused(answer.reply.outcome.err(), same);
    }

    // A refresh that is lent a picture of the wrong length.
    fn short_refresh(&mut self) {
        let lent = &mut self.picture[1..];
        let before = sum(lent);
        let answer = picture::refresh(self.board, &self.ram, lent);
        let same = sum(lent) == before;
        self.refused(answer.err(), same);
    }

    // What was counted, then sums of the bytes.
    fn end_scene(&mut self, rt: &impl Print) -> io::Result<()> {
        print!(rt; ": {}", self.tally)?;
        println!(rt; ", picture {}, ram {}", sum(&self.picture), sum(&self.ram))?;
        self.tally = Tally::default();
        Ok(())
    }

    fn print_line(&self, rt: &impl Print, line: u8) -> io::Result<()> {
        let first = 90 * line as usize;
        println!(rt; "{}", Pixels(&self.picture[first..first + 90]))
    }

    pub(crate) fn take(&mut self, rt: &impl Print, op: Op) -> io::Result<()> {
        match op {
            Op::Step(s) => self.step(s),
            Op::PowerOn { rate } => self.power_on(rate),
            Op::Refresh => self.refresh(),
            Op::ShortStep(s) => self.short_step(s),
            Op::ShortRefresh => self.short_refresh(),
            Op::EndScene => self.end_scene(rt)?,
            Op::Byte(byte) => rt.write_all(&[byte])?,
            Op::Line(line) => self.print_line(rt, line)?,
        }
        Ok(())
    }
}
