// Memory sizes, map bytes and the lock: which 16K block and place an access reaches, and where that lies in the RAM.
#![tactic(auto)]

ghost use Rattle.std.specs.Prelude.{◌≡◌, get_or};
ghost use Rattle.paging.specs.Maps.{allowed, ram_fits, expansion, map_read, map_write};
ghost use Rattle.paging.specs.Memory.{reach_of, index_of, keyboard_index, locked};

// Memory sizes in 16K blocks: internal, and internal with expansion.
#[repr(C)]
#[derive(Clone, Copy, Default)]
pub struct Sizes {
    pub internal: u8,
    pub total: u8,
}

// The map byte of each bank (F0 to F3) and the lock byte (F4).
#[repr(C)]
#[derive(Clone, Copy, Default)]
pub struct Paging {
    pub maps: [u8; 4],
    pub lock: u8,
}

// Where an access lands: the block that a read reaches, the one that a write reaches, and the place in the block.
#[derive(Clone, Copy)]
pub struct Reach {
    pub read: u8,
    pub write: u8,
    pub place: u16,
}

impl Sizes {
    #[tactic(auto, unfolding(crate::specs::Maps::allowed))]
    pub fn allowed(self) -> bool
        ensures { result ≡ allowed self }
    {
        matches!(self.internal, 8 | 16 | 32) && (self.internal..=128).contains(&self.total)
    }

    // Whether a RAM of so many bytes is of these sizes.
    #[tactic(auto, unfolding(crate::specs::Maps::ram_fits))]
    pub fn ram_fits(self, length: usize) -> bool
        ensures { result ≡ ram_fits self length }
    {
        length == self.total as usize * 16384
    }

    // The block of a map byte with D7 set; with no internal memory there is none to take its place.
    #[tactic(auto, unfolding(crate::specs::Maps::expansion))]
    fn expansion(self, map: u8) -> u8
        ensures { result ≡ expansion self map }
    {
        let e = map % 128;
        if e < self.total {
            return e;
        }
        e.checked_rem(self.internal).unwrap_or(e)
    }

    // The block that a write by a map byte reaches.
    #[tactic(auto, unfolding(crate::specs::Maps::map_write))]
    pub fn map_write(self, map: u8) -> u8
        ensures { result ≡ map_write self map }
    {
        if map < 128 {
            return map % 8;
        }
        self.expansion(map)
    }

    // The block that a read by a map byte reaches.
    #[tactic(auto, unfolding(crate::specs::Maps::map_read))]
    pub fn map_read(self, locked: bool, map: u8) -> u8
        ensures { result ≡ map_read self locked map }
    {
        if map >= 128 {
            return self.expansion(map);
        }
        if locked { map % 8 } else { map / 16 % 8 }
    }
}

impl Paging {
    // The lock bit of a bank: D7 bank C000h, D6 0000h, D5 8000h, D4 4000h.
    #[tactic(auto, unfolding(crate::specs::Memory::locked, crate::specs::Memory::lock_weight))]
    fn locked(self, bank: usize) -> bool
        ensures { result ≡ locked self.lock bank }
    {
        match bank {
            0 => self.lock / 64 % 2 == 1,
            1 => self.lock / 16 % 2 == 1,
            2 => self.lock / 32 % 2 == 1,
            3 => self.lock / 128 % 2 == 1,
            _ => false,
        }
    }

    #[tactic(auto, unfolding(crate::specs::Memory::reach_of, crate::specs::Memory::read_block, crate::specs::Memory::write_block, crate::specs::Memory::bank_of, crate::specs::Memory::place_of))]
    pub fn reach(self, sizes: Sizes, address: u16) -> Reach
        ensures { result ≡ reach_of sizes self address }
    {
        let bank = (address / 16384) as usize;
        let map = self.maps[bank];
        Reach {
            read: sizes.map_read(self.locked(bank), map),
            write: sizes.map_write(map),
            place: address % 16384,
        }
    }
}

// A block and a place as an index into the RAM.
pub fn index(block: u8, place: u16) -> usize
    ensures { result ≡ index_of block place }
{
    block as usize * 16384 + place as usize
}

// The index of a keyboard byte.
#[tactic(auto, unfolding(crate::specs::Memory::keyboard_index))]
pub fn keyboard_index(offset: u8) -> usize
    ensures { result ≡ keyboard_index offset }
{
    index(3, 0x3FF0 + offset as u16)
}

// The byte at an index of the RAM; 0 past its end.
pub fn byte_at(ram: &[u8], at: usize) -> u8
    ensures { result ≡ get_or ram.now at 0 }
{
    ram.get(at).copied().unwrap_or(0)
}
