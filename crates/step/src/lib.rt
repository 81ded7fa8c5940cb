// A step of any kind: it takes the record and hands the next one on in its answer, and is lent RAM and boot stream. Both are
// checked first, and once.
#![tactic(auto)]

ghost use Rattle.std.specs.Prelude.{◌≡◌};
ghost use Rattle.step_rules.specs.Answers.{step_effect, effect_ram, step_answer, step_ram, told};
ghost use Rattle.step_rules.specs.Decoding.{decoded, numbers_answer, numbers_ram};

mod effects;
mod lent;
mod lines;
mod memory;
mod ports;

use board::{Board, Disc};
use effects::{SILENT, accept};
use lent::GoodBoard;
use lines::{refused, with_interrupt_lines};
use memory::{fetch, key, read, write};
use ports::{port_in, port_out};
pub use step_rules::{Answer, Reply, Step};
use step_rules::{Effect, decode_step};

// What the kind does, once record and buffers are found good.
#[tactic(auto, using(crate::proofs::Does::scan_does, crate::proofs::Does::disc_does, crate::proofs::Does::external_does, crate::proofs::Does::write_does, crate::proofs::Does::write_stores, crate::proofs::Does::ram_kept_by))]
fn effect(good: GoodBoard, s: Step, ram: &mut [u8], boot: &[u8]) -> Effect
    ensures { (result ≡ step_effect good.board ram.old boot.now s) × (ram.new ≡ effect_ram good.board ram.old boot.now s) }
{
    let b = good.board;
    match s {
        Step::Fetch(address) => fetch(good, address, ram, boot),
        Step::Read(address) => read(good, address, ram),
        Step::Write(address, value) => write(good, address, value, ram),
        Step::PortIn(port) => port_in(good, port),
        Step::PortOut(port, value) => port_out(good, port, value),
        Step::Scan => accept(b.scan(), SILENT),
        Step::Key(offset, value) => key(b, offset, value, ram),
        Step::DiscLine(on) => {
            let line = on as u8;
            let disc = Disc { line, ..b.disc };
            accept(Board { disc, ..b }, SILENT)
        }
        Step::ExternalLine(on) => {
            let external = on as u8;
            accept(Board { external, ..b }, SILENT)
        }
    }
}

#[tactic(auto, using(crate::proofs::Answers::lent_refused, crate::proofs::Answers::lent_kept, crate::proofs::Answers::lent_answer, crate::proofs::Answers::lent_ram))]
pub fn step(b: Board, s: Step, ram: &mut [u8], boot: &[u8]) -> Answer
    ensures { (result ≡ told (step_answer b ram.old boot.now s)) × (ram.new ≡ step_ram b ram.old boot.now s) }
{
    match GoodBoard::lent(b, ram.len(), boot.len()) {
        Ok(good) => with_interrupt_lines(effect(good, s, ram, boot)),
        Err(refusal) => refused(b, refusal),
    }
}

// The step that a kind, a number and a value name. They are read only where record and buffers are found good, so that the kind leads
// straight to what it does: decoded before the check, they cost a step 4 to 16 instructions.
#[tactic(auto, using(crate::proofs::Answers::lent_refused, crate::proofs::Answers::lent_kept, crate::proofs::Answers::lent_answer, crate::proofs::Answers::lent_ram, crate::proofs::Answers::numbers_step, crate::proofs::Answers::numbers_left))]
pub fn step_by_numbers(
    b: Board,
    kind: u32,
    number: u32,
    value: u32,
    ram: &mut [u8],
    boot: &[u8],
) -> Answer
    ensures { (result ≡ told (numbers_answer b ram.old boot.now (decoded kind number value))) × (ram.new ≡ numbers_ram b ram.old boot.now (decoded kind number value)) }
{
    let c = b.by_fields();
    match GoodBoard::lent(c, ram.len(), boot.len()) {
        Ok(good) => {
            with_interrupt_lines(effect(good, decode_step(kind, number, value), ram, boot))
        }
        Err(refusal) => refused(c, refusal),
    }
}
