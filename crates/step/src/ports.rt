// What ports (document 01: channels) in and out do.
ghost use Rattle.std.specs.Prelude.{◌≡◌, List, ℕ};
ghost use Rattle.step_rules.specs.Ports.{forwarded_in, forwarded_out, status_byte};
ghost use Rattle.step_rules.specs.Answers.{step_effect};

use crate::effects::{FORWARDED, SILENT, accept, give, refuse};
use crate::lent::GoodBoard;
use board::{Board, Clock};
use refusal::Refusal;
use step_rules::{Effect, Step};

// F8 as read: 64 in the flyback, 32 with the disc line on, 16 on 50 Hz, and the counter.
#[tactic(auto, unfolding(step_rules::specs::Ports::status_byte))]
fn status(good: GoodBoard) -> u8
    ensures { result ≡ status_byte good.board }
{
    let b = good.board;
    let flyback = (b.clock.beam < 26) as u8;
    let disc = (b.disc.line == 1) as u8;
    let rate = (b.rate == 50) as u8;
    flyback * 64 + (disc * 32 + (rate * 16 + b.clock.counter))
}

// The ports out that are forwarded to the host.
#[tactic(auto, unfolding(step_rules::specs::Ports::forwarded_out))]
fn is_forwarded(port: u8) -> bool
    ensures { result ≡ forwarded_out port }
{
    matches!(port, 0x01 | 0x80..=0xef | 0xfc..=0xfd)
}

// Those in: 00 is too.
#[tactic(auto, unfolding(step_rules::specs::Ports::forwarded_in))]
fn is_forwarded_in(port: u8) -> bool
    ensures { result ≡ forwarded_in port }
{
    (port == 0x00) | is_forwarded(port)
}

// F4 and F8 give one byte; F4 alone clears the counter.
#[tactic(auto, using(crate::proofs::Does::in_clears, crate::proofs::Does::in_reads, crate::proofs::Does::in_forwards, crate::proofs::Does::in_none))]
pub(crate) fn port_in(good: GoodBoard, port: u8) -> Effect
    ensures { (ram boot : List ℕ) → result ≡ step_effect good.board ram boot (Step.PortIn port) }
{
    let b = good.board;
    match port {
        0xf4 => {
            let byte = status(good);
            let cleared = Board {
                clock: Clock {
                    counter: 0,
                    ..b.clock
                },
                ..b
            };
            give(cleared, byte)
        }
        0xf8 => give(b, status(good)),
        _ if is_forwarded_in(port) => accept(b, FORWARDED),
        _ => refuse(b, Refusal::NoPort),
    }
}

#[tactic(auto, using(crate::proofs::Does::out_register, crate::proofs::Does::out_idle, crate::proofs::Does::out_forwards, crate::proofs::Does::out_none))]
pub(crate) fn port_out(good: GoodBoard, port: u8, value: u8) -> Effect
    ensures { (ram boot : List ℕ) → result ≡ step_effect good.board ram boot (Step.PortOut port value) }
{
    let b = good.board;
    match port {
        0xf0..=0xf8 => accept(b.out(port, value), SILENT),
        0xfa..=0xfb => accept(b, SILENT),
        _ if is_forwarded(port) => accept(b, FORWARDED),
        _ => refuse(b, Refusal::NoPort),
    }
}
