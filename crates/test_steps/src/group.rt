// A group is four bytes: what to do, and a, b and c. 1 to 9: a step of this kind, at a + 256 * b with the value c.
// 10: power-on. 11: the RAM's length. 12: the boot stream's length. 13: a field of the record. 14: the record. 15: the dirty
// lines. 16: a byte of the RAM. 17: steps of kind c, printed where a tick falls. 18: all ports. 19: the RAM filled.
// 0: text. Any other: a step of a kind that there is not. A kind stays a number: it is printed, and may name no step.
use paging::Sizes;

#[derive(Clone, Copy)]
pub(crate) struct Numbered {
    pub kind: u8,
    pub number: u16,
    pub value: u8,
}

#[derive(Clone, Copy)]
pub(crate) enum Group {
    Text([u8; 3]),
    Step(Numbered),
    PowerOn(Sizes, u8),
    RamLength(usize),
    BootLength(usize),
    Field { name: u8, n: u16 },
    Record,
    DirtyLines,
    Byte(usize),
    Ticks { kind: u8, steps: u16 },
    Ports { kind: u8, value: u8 },
    Fill(u8),
}

impl From<[u8; 4]> for Group {
    fn from([op, a, b, c]: [u8; 4]) -> Group {
        let number = u16::from_le_bytes([a, b]);
        let at = u32::from_le_bytes([a, b, c, 0]) as usize;
        match op {
            0 => Group::Text([a, b, c]),
            10 => {
                let sizes = Sizes {
                    internal: a,
                    total: b,
                };
                Group::PowerOn(sizes, c)
            }
            11 => Group::RamLength(at),
            12 => Group::BootLength(at),
            13 => Group::Field {
                name: a,
                n: u16::from_le_bytes([b, c]),
            },
            14 => Group::Record,
            15 => Group::DirtyLines,
            16 => Group::Byte(at),
            17 => Group::Ticks {
                kind: c,
                steps: number,
            },
            18 => Group::Ports { kind: a, value: b },
            19 => Group::Fill(a),
            _ => Group::Step(Numbered {
                kind: op,
                number,
                value: c,
            }),
        }
    }
}
