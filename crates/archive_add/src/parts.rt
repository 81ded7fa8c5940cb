// Numbers in lent room, and the header and entries made of them.
ghost use Rattle.std.specs.Prelude.{◌+◌, ◌*◌, ◌≤◌, length, ◌≡◌};
ghost use Rattle.facts.specs.Lists.{in_room};
ghost use Rattle.byte_rows.specs.Numbers.{number4};
ghost use Rattle.byte_rows.specs.Rows.{put};
ghost use Rattle.archive.specs.Format.{entry, header};

use archive::Entry;

// Puts the four bytes of a number at an index, low first. (Not by to_le_bytes: no function of archives has a local array.)
#[tactic(auto, using(byte_rows::proofs::Rows::put_four), unfolding(byte_rows::specs::Numbers::number4))]
fn write4(out: &mut [u8], to: usize, n: u32)
    requires { to + 4 ≤ length out.old }
    ensures { out.new ≡ put out.old to (number4 n) }
{
    out[to] = (n % 256) as u8;
    out[to + 1] = (n / 256 % 256) as u8;
    out[to + 2] = (n / 65536 % 256) as u8;
    out[to + 3] = (n / 16777216 % 256) as u8;
}

pub(crate) fn put_entry(out: &mut [u8], to: usize, e: Entry)
    requires { to + 16 ≤ length out.old }
    ensures { out.new ≡ put out.old to (entry e.bench e.number e.shown e.offset) }
{
    write4(out, to, e.bench);
    write4(out, to + 4, e.number);
    write4(out, to + 8, e.shown);
    write4(out, to + 12, e.offset);
}

pub(crate) fn put_header(out: &mut [u8], n: u32)
    requires in_bounds { 20 ≤ length out.old }
    requires n_bound { n ≤ 1000 }
    ensures { out.new ≡ in_room (header n) out.old }
{
    write4(out, 0, 1);
    write4(out, 4, n);
    write4(out, 8, 20);
    write4(out, 12, 20 + 16 * n);
    write4(out, 16, 20 + 23056 * n);
}
