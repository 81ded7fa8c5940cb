// The record and the RAM that the list works on. A method of the record that is told of a store does not write the RAM, which is done
// after it.
use crate::op::Op;
use board::Board;
use lineset::LineSet;
use paging::keyboard_index;
use std::io;
use test_print::{Record, Words};

#[derive(Drop)]
pub(crate) struct Machine {
    pub board: Board,
    pub ram: [u8; 131072],
}

impl Machine {
    fn power_on(&mut self, rate: u8) {
        test_bytes::fill(&mut self.ram, 167);
        self.board = test_board::start(rate);
    }

    // A byte written; past the end nothing is.
    fn put(&mut self, at: usize, value: u8) {
        if let Some(byte) = self.ram.get_mut(at) {
            *byte = value;
        }
    }

    fn store(&mut self, at: usize, value: u8) {
        self.board = self.board.store(&self.ram, at, value);
        self.put(at, value);
    }

    fn key(&mut self, offset: u8, value: u8) {
        self.board = self.board.key(&self.ram, offset, value);
        self.put(keyboard_index(offset), value);
    }

    fn chained(&mut self, at: usize, value: u8) {
        self.board = self
            .board
            .scan()
            .out(0xf6, value)
            .store(&self.ram, at, value);
        self.put(at, value);
    }

    fn print(&self, rt: &impl Print) -> io::Result<()> {
        println!(rt;
            "   {}   dirty {}",
            Record(self.board),
            Words(self.board.dirty)
        )
    }

    pub(crate) fn take(&mut self, rt: &impl Print, op: Op) -> io::Result<()> {
        match op {
            Op::PowerOn { rate } => self.power_on(rate),
            Op::Scan => self.board = self.board.scan(),
            Op::Out { port, value } => self.board = self.board.out(port, value),
            Op::Store { at, value } => self.store(at, value),
            Op::Key { offset, value } => self.key(offset, value),
            Op::Record => self.print(rt)?,
            Op::Byte(byte) => rt.write_all(&[byte])?,
            Op::Chained { at, value } => self.chained(at, value),
            Op::NoDirtyLines => self.board.dirty = LineSet::empty(),
            Op::Nothing => {}
        }
        Ok(())
    }
}
