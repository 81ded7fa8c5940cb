// The record, and the memory and boot stream of which steps are lent the first bytes. The stream is the list itself.
// The lengths stand by themselves: one may be over what there is, and then nothing is lent.
use crate::group::{Group, Numbered};
use board::Board;
use lineset::LineSet;
use paging::{Sizes, byte_at};
use std::io;
use step::{Answer, step};
use step_rules::decode_step;
use test_print::{Record, Reply, Words};

#[derive(Drop)]
pub(crate) struct Machine<'a> {
    board: Board,
    memory: &'a mut [u8],
    ram_length: usize,
    list: &'a [u8],
    boot_length: usize,
}

// One field set to any number; a name that no field has sets the dirty lines from 192 on.
// Each number is another place of the record, so a match is the plainest.
fn set_field(b: &mut Board, name: u8, n: u16) {
    let [low, _] = n.to_le_bytes();
    match name {
        1 => b.sizes.internal = low,
        2 => b.sizes.total = low,
        3 => b.rate = low,
        4 => b.clock.counter = low,
        5 => b.clock.beam = n,
        6 => b.boot.mode = low,
        7 => b.boot.at = n,
        8 => b.disc.route = low,
        9 => b.disc.line = low,
        10 => b.disc.terminal_count = low,
        11 => b.disc.motor = low,
        12 => b.external = low,
        13 => b.driven = low,
        14 => b.bleeper = low,
        15 => b.video.control = low,
        _ => {
            b.dirty = LineSet {
                words: [0, 0, 0, u64::from(n)],
            }
        }
    }
}

// Power-on with the table at block 1, place 0. Prints the refusal.
fn power_on(rt: &impl Print, sizes: Sizes, rate: u8) -> io::Result<Board> {
    let on = test_board::power_on(sizes, rate, 0x20);
    println!(rt; "power-on refusal {}", on.err().map_or(0, u8::from))?;
    Ok(on.unwrap_or_default())
}

fn print_dirty(rt: &impl Print, b: Board) -> io::Result<()> {
    println!(rt; "   dirty {}", Words(b.dirty))
}

// A step's numbers and its reply.
fn print_step(rt: &impl Print, s: Numbered, a: Answer) -> io::Result<()> {
    println!(rt; "{} {:04x} {:02x}: {}", s.kind, s.number, s.value, Reply(a))
}

impl<'a> Machine<'a> {
    // A board that is refused, and nothing lent.
    pub(crate) fn new(
        rt: &impl Print,
        memory: &'a mut [u8],
        list: &'a [u8],
    ) -> io::Result<Machine<'a>> {
        let sizes = Sizes {
            internal: 0,
            total: 0,
        };
        Ok(Machine {
            board: power_on(rt, sizes, 0)?,
            memory,
            ram_length: 0,
            list,
            boot_length: 0,
        })
    }

    // The RAM and the boot stream, unless more of either is to be lent than there is.
    fn lent(&mut self) -> Option<(&mut [u8], &[u8])> {
        let n = self.ram_length;
        if n > self.memory.len() {
            return None;
        }
        let boot = self.list.get(..self.boot_length)?;
        Some((&mut self.memory[..n], boot))
    }

    // The answer to a step from the record as it is.
    fn answer(&mut self, s: Numbered) -> Option<Answer> {
        let asked = decode_step(s.kind.into(), s.number.into(), s.value.into());
        let board = self.board;
        let (ram, boot) = self.lent()?;
        Some(step(board, asked, ram, boot))
    }

    fn step(&mut self, rt: &impl Print, s: Numbered) -> io::Result<()> {
        let Some(a) = self.answer(s) else {
            return Ok(());
        };
        self.board = a.board;
        print_step(rt, s, a)
    }

    // Steps, of which those that land on a tick's beam have a line.
    fn ticks(&mut self, rt: &impl Print, kind: u8, steps: u16) -> io::Result<()> {
        let s = Numbered {
            kind,
            number: 0,
            value: 0,
        };
        for _ in 0..steps {
            let Some(a) = self.answer(s) else {
                return Ok(());
            };
            self.board = a.board;
            if a.board.clock.beam % 52 == 2 {
                print_step(rt, s, a)?;
            }
        }
        Ok(())
    }

    // All 256 ports, each from the same record: the refusal, and whether it is forwarded.
    fn ports(&mut self, rt: &impl Print, kind: u8, value: u8) -> io::Result<()> {
        for number in 0..256 {
            let s = Numbered {
                kind,
                number,
                value,
            };
            let Some(a) = self.answer(s) else {
                return Ok(());
            };
            match a.reply.outcome {
                Ok(outcome) => print!(rt; " 0{}", u8::from(outcome.forwarded))?,
                Err(refusal) => print!(rt; " {}0", u8::from(refusal))?,
            }
        }
        Ok(())
    }

    fn byte(&mut self, rt: &impl Print, at: usize) -> io::Result<()> {
        match self.lent() {
            Some((ram, _)) => print!(rt; "   {:02x}", byte_at(ram, at)),
            None => Ok(()),
        }
    }

    fn fill(&mut self, value: u8) {
        if let Some((ram, _)) = self.lent() {
            ram.fill(value);
        }
    }

    pub(crate) fn take(&mut self, rt: &impl Print, group: Group) -> io::Result<()> {
        match group {
            Group::Text(text) => rt.write_all(&text)?,
            Group::Step(s) => self.step(rt, s)?,
            Group::PowerOn(sizes, rate) => self.board = power_on(rt, sizes, rate)?,
            Group::RamLength(n) => self.ram_length = n,
            Group::BootLength(n) => self.boot_length = n,
            Group::Field { name, n } => set_field(&mut self.board, name, n),
            Group::Record => {
                print!(rt; "   {}", Record(self.board))?;
                print_dirty(rt, self.board)?;
            }
            Group::DirtyLines => print_dirty(rt, self.board)?,
            Group::Byte(at) => self.byte(rt, at)?,
            Group::Ticks { kind, steps } => self.ticks(rt, kind, steps)?,
            Group::Ports { kind, value } => self.ports(rt, kind, value)?,
            Group::Fill(value) => self.fill(value),
        }
        Ok(())
    }
}
