// What a scan and a port do to the record.
ghost use Rattle.std.specs.Prelude.{◌≡◌, List, ℕ, ◌<◌, set};
ghost use Rattle.board.specs.Clock.{scanned};
ghost use Rattle.board.specs.Record.{view_of, with_clock, with_dirty};
ghost use Rattle.board.specs.Registers.{written};
ghost use Rattle.board.specs.Dirty.{dirty_after, with_marks};

use crate::record::Board;
use scanline::Video;
use std::array;

// The maps with another one for a bank. Each map is chosen by its bank: where one is stored among the four, which are then read together, a
// processor waits for the store, and a port out F0 takes an eighth more time. (Stored in the record itself it keeps the whole record in memory.)
fn with_map(maps: [u8; 4], bank: usize, map: u8) -> [u8; 4]
    requires { bank < 4 }
    ensures { result ≡ set maps bank map }
{
    array::from_fn(|i| if i == bank { map } else { maps[i] })
}

impl Board {
    // One scan on.
    pub fn scan(self) -> Board
        ensures { result ≡ with_clock self (scanned self.rate self.clock) }
    {
        Board {
            clock: self.clock.next(self.rate),
            ..self
        }
    }

    // Command 1: as at power-on, but sizes, rate, maps, lock, F5, F6, beam, lines and dirty lines stay. (By struct update a port out took
    // 4 % more instructions.)
    #[tactic(auto, unfolding(crate::specs::Registers::written, crate::specs::Registers::paging_out, crate::specs::Registers::video_out, crate::specs::Registers::control_commanded, crate::specs::Registers::clock_commanded, crate::specs::Registers::boot_commanded, crate::specs::Registers::disc_commanded, crate::specs::Registers::driven_commanded, crate::specs::Registers::bleeper_commanded))]
    fn reset(mut self) -> Board
        ensures { result ≡ written self 0xF8 1 }
    {
        self.video.control = 0;
        self.clock.counter = 0;
        self.boot.mode = 1;
        self.boot.at = 0;
        self.disc.route = 0;
        self.disc.terminal_count = 1;
        self.disc.motor = 0;
        self.driven = 1;
        self.bleeper = 0;
        self
    }

    // A command of F8, 0 to 15. Document 01 has single cases of its number: "F8 commands 0 to 15 likewise".
    #[tactic(auto, unfolding(crate::specs::Registers::written, crate::specs::Registers::paging_out, crate::specs::Registers::video_out, crate::specs::Registers::control_commanded, crate::specs::Registers::clock_commanded, crate::specs::Registers::boot_commanded, crate::specs::Registers::disc_commanded, crate::specs::Registers::driven_commanded, crate::specs::Registers::bleeper_commanded))]
    fn command(mut self, number: u8) -> Board
        requires { number < 16 }
        ensures { result ≡ written self 0xF8 number }
    {
        match number {
            0 => self.boot.mode = 0,
            1 => self = self.reset(),
            2 => self.disc.route = 1,
            3 => self.disc.route = 2,
            4 => self.disc.route = 0,
            5 => self.disc.terminal_count = 1,
            6 => self.disc.terminal_count = 0,
            7 => self.driven = 1,
            8 => self.driven = 0,
            9 => self.disc.motor = 1,
            10 => self.disc.motor = 0,
            11 => self.bleeper = 1,
            12 => self.bleeper = 0,
            _ => {}
        }
        self
    }

    // A register or a command, by its port; any other port leaves the record. Document 01: "The channel number decides over ranges
    // (80 to EF, F0 to F3) and single cases".
    #[tactic(auto, unfolding(crate::specs::Registers::written, crate::specs::Registers::paging_out, crate::specs::Registers::video_out))]
    fn write_port(mut self, port: u8, value: u8) -> Board
        ensures { result ≡ written self port value }
    {
        match port {
            0xf0..=0xf3 => {
                self.paging.maps = with_map(self.paging.maps, (port - 0xf0) as usize, value)
            }
            0xf4 => self.paging.lock = value,
            0xf5 => self.video.table = value,
            0xf6 => self.video.top = value,
            0xf7 => self.video.control = value,
            0xf8 => self = self.command(value % 16),
            _ => {}
        }
        self
    }

    // The shown lines are dirty if F5, F6, or D7 or D6 of F7 differ from those before: with the RAM as it was, whatever it
    // holds, just then they change.
    fn mark_video(self, before: Video) -> Board
        ensures { (ram : List ℕ) → result ≡ with_dirty self (dirty_after self.dirty self.rate (record { video = before; ram = ram }) (view_of self ram)) }
    {
        if !scanline::video_differs(before, self.video) {
            return self;
        }
        Board {
            dirty: self.dirty.with_shown(self.rate),
            ..self
        }
    }

    // A write to a port, with the lines that it makes dirty, whatever the RAM holds.
    #[tactic(auto, unfolding(crate::specs::Registers::written))]
    pub fn out(self, port: u8, value: u8) -> Board
        ensures { (ram : List ℕ) → result ≡ with_marks self ram (written self port value) ram }
    {
        let before = self.video;
        self.write_port(port, value).mark_video(before)
    }
}
