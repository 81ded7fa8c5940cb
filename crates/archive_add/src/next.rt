// The next archive, put down in lent room: header and entries, the old pictures, the new picture.
ghost use Rattle.std.specs.Prelude.{◌+◌, ◌*◌, ◌≤◌, ◌<◌, length, ◌++◌, ◌∷◌, [], ◌≡◌};
ghost use Rattle.facts.specs.Lists.{in_room};
ghost use Rattle.byte_rows.specs.Rows.{put, rows};
ghost use Rattle.archive.specs.Format.{archive_of};
ghost use Rattle.archive.specs.Sound.{frames_of};
ghost use Rattle.archive_add.specs.Adding.{frame_of};
ghost use Rattle.archive_add.specs.Next.{moved_row, next_entries, padded};

use crate::Label;
use crate::parts::{put_entry, put_header};
use archive::{Archive, Entry};

// The entries of an archive, as those of one of a frame more: their pictures stand 16 bytes further on.
fn move_entries(archive: &Archive, out: &mut [u8])
    requires { 20 + 16 * archive.now.layout.count ≤ length out.old }
    ensures { out.new ≡ put out.old 20 (rows (moved_row archive.now.layout.bytes.now (archive.now.layout.count + 1)) archive.now.layout.count) }
{
    let n = archive.layout.count;
    for k in 0..n {
        let offset = 20 + 16 * (n + 1) + 23040 * k;
        let e = archive::entry_at(archive.layout.bytes, k as u32);
        put_entry(
            out,
            20 + 16 * k,
            Entry {
                offset: offset as u32,
                ..e
            },
        );
    }
}

// Header and entries.
fn put_entries(archive: &Archive, label: Label, room: &mut [u8])
    requires few { archive.now.layout.count < 1000 }
    requires fits { 20 + 16 * (archive.now.layout.count + 1) ≤ length room.old }
    ensures { room.new ≡ in_room (next_entries archive.now.layout.bytes.now archive.now.layout.count label.bench label.number label.shown) room.old }
{
    let n = archive.layout.count;
    put_header(room, (n + 1) as u32);
    move_entries(archive, room);
    let offset = 20 + 16 * (n + 1) + 23040 * n;
    let e = Entry {
        bench: label.bench,
        number: label.number,
        shown: label.shown,
        offset: offset as u32,
    };
    put_entry(room, 20 + 16 * n, e);
}

// The shown lines of a picture, and zeros.
fn put_picture(picture: &[u8], used: usize, out: &mut [u8], to: usize)
    requires used_bound { used ≤ 23040 }
    requires used_in_bounds { used ≤ length picture.now }
    requires to_in_bounds { to + 23040 ≤ length out.old }
    ensures { out.new ≡ put out.old to (padded picture.now used) }
{
    byte_rows::copy(&picture[..used], out, to);
    out[to + used..to + 23040].fill(0);
}

pub(crate) fn put_next(archive: &Archive, label: Label, picture: &[u8], room: &mut [u8])
    requires few { archive.now.layout.count < 1000 }
    requires fits { 20 + 23056 * (archive.now.layout.count + 1) ≤ length room.old }
    requires shown { label.shown ≤ 256 }
    requires whole { length picture.now ≡ 23040 }
    ensures { room.new ≡ in_room (archive_of (frames_of archive.now.layout.bytes.now ++ (frame_of label.bench label.number label.shown picture.now ∷ []))) room.old }
{
    put_entries(archive, label, room);
    let n = archive.layout.count;
    let pictures = &archive.layout.bytes[20 + 16 * n..];
    let from = 20 + 16 * (n + 1);
    let end = from + 23040 * n;
    byte_rows::copy(pictures, room, from);
    put_picture(picture, label.shown as usize * 90, room, end);
}
