// What a group of the list asks for.
use archive::Pair;
use archive_add::Label;

#[derive(Clone, Copy)]
pub(crate) enum Op {
    Title,
    LendHeld(usize),
    LendRoom(usize),
    LendPicture { length: usize, first: u8 },
    Start,
    Add(Label),
    Hold,
    Change { at: usize, mask: u8 },
    CountChanged { at: usize, mask: u8 },
    Count,
    Entry(u32),
    Stands(u32),
    Find(Pair),
    Read(u32),
    InRange { bench: u32, shown: u32 },
    Bytes { from: usize, end: usize },
    Nothing,
}

// The numbers of a group, each low first.
fn numbers(group: [u8; 16]) -> [u32; 4] {
    let mut numbers = [0; 4];
    for (number, bytes) in numbers.iter_mut().zip(group.as_chunks().0) {
        *number = u32::from_le_bytes(*bytes);
    }
    numbers
}

impl From<[u8; 16]> for Op {
    fn from(group: [u8; 16]) -> Op {
        let [op, a, b, c] = numbers(group);
        let at = a as usize;
        let [low, ..] = b.to_le_bytes();
        match op {
            0 => Op::Title,
            1 => Op::LendHeld(at),
            2 => Op::LendRoom(at),
            3 => Op::LendPicture {
                length: at,
                first: low,
            },
            4 => Op::Start,
            5 => Op::Add(Label {
                bench: a,
                number: b,
                shown: c,
            }),
            6 => Op::Hold,
            7 => Op::Change { at, mask: low },
            8 => Op::CountChanged { at, mask: low },
            9 => Op::Count,
            10 => Op::Entry(a),
            11 => Op::Stands(a),
            12 => Op::Find(Pair {
                bench: a,
                number: b,
            }),
            13 => Op::Read(a),
            14 => Op::InRange { bench: a, shown: b },
            15 => Op::Bytes {
                from: at,
                end: b as usize,
            },
            _ => Op::Nothing,
        }
    }
}
