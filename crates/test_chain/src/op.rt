// What a group of the list asks for.
#[derive(Clone, Copy)]
pub(crate) enum Op {
    PowerOn { rate: u8 },
    Scan,
    Out { port: u8, value: u8 },
    Store { at: usize, value: u8 },
    Key { offset: u8, value: u8 },
    Record,
    Byte(u8),
    Chained { at: usize, value: u8 },
    NoDirtyLines,
    Nothing,
}

impl From<[u8; 5]> for Op {
    fn from([op, a, b, c, value]: [u8; 5]) -> Op {
        let at = u32::from_le_bytes([a, b, c, 0]) as usize;
        match op {
            0 => Op::PowerOn { rate: value },
            1 => Op::Scan,
            2 => Op::Out { port: a, value },
            3 => Op::Store { at, value },
            4 => Op::Key { offset: a, value },
            5 => Op::Record,
            6 => Op::Byte(value),
            7 => Op::Chained { at, value },
            8 => Op::NoDirtyLines,
            _ => Op::Nothing,
        }
    }
}
