// What a group of the list asks for.
use step::Step;
use step_rules::decode_step;

#[derive(Clone, Copy)]
pub(crate) enum Op {
    Step(Step),
    PowerOn { rate: u8 },
    Refresh,
    ShortStep(Step),
    ShortRefresh,
    EndScene,
    Byte(u8),
    Line(u8),
}

impl From<[u8; 4]> for Op {
    fn from([op, a, b, c]: [u8; 4]) -> Op {
        match op {
            10 => Op::PowerOn { rate: a },
            11 => Op::Refresh,
            12 => Op::ShortStep(decode_step(a.into(), b.into(), c.into())),
            13 => Op::ShortRefresh,
            20 => Op::EndScene,
            21 => Op::Byte(a),
            22 => Op::Line(a),
            _ => {
                let number = u16::from_le_bytes([a, b]);
                Op::Step(decode_step(op.into(), number.into(), c.into()))
            }
        }
    }
}
