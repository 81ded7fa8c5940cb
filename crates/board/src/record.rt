// The board's record (document 01: the record). It is C's, laid out as C does: the rate, flags and the disc's route are numbers, no bool and
// no enum, since every bit pattern that C lends is a record, good or not.
use lineset::LineSet;
use paging::{Paging, Sizes};
use scanline::Video;

// The interrupt counter, 0 to 15, and the beam's scan.
#[repr(C)]
#[derive(Clone, Copy, Default)]
pub struct Clock {
    pub counter: u8,
    pub beam: u16,
}

// Boot mode, 0 or 1, and the place in the boot stream, 0 to 1,024.
#[repr(C)]
#[derive(Clone, Copy, Default)]
pub struct Boot {
    pub mode: u8,
    pub at: u16,
}

// The disc controller's interrupt route (0 none, 1 NMI, 2 INT), its line, terminal count and motor, each 0 or 1.
#[repr(C)]
#[derive(Clone, Copy, Default)]
pub struct Disc {
    pub route: u8,
    pub line: u8,
    pub terminal_count: u8,
    pub motor: u8,
}

// The external line, the driven video and the bleeper are 0 or 1; the dirty lines are document 01's noted lines.
#[repr(C)]
#[derive(Clone, Copy, Default)]
pub struct Board {
    pub sizes: Sizes,
    pub rate: u8,
    pub paging: Paging,
    pub video: Video,
    pub clock: Clock,
    pub boot: Boot,
    pub disc: Disc,
    pub external: u8,
    pub driven: u8,
    pub bleeper: u8,
    pub dirty: LineSet,
}
