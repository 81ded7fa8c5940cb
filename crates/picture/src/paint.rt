// Lines drawn into a lent picture.
ghost use Rattle.std.specs.Prelude.{◌≡◌, ℕ, ◌≤◌, eqb, ltb, length};
ghost use Rattle.lineset.specs.Lines.{member};
ghost use Rattle.picture.specs.Pictures.{painted};

use lineset::LineSet;
use scanline::Video;

// What lines are drawn from: F5, F6, F7 and the RAM, in which all of standard RAM lies.
#[derive(Clone, Copy)]
pub(crate) struct View<'a> {
    pub(crate) video: Video,
    pub(crate) ram: &'a [u8],
    ghost standard: { 131072 ≤ length ram.now },
}

impl View<'_> {
    // One line, straight into its 90 bytes of the picture. Every index that a pointer names lies in standard RAM.
    #[tactic(auto, using(scanline::proofs::Pixels::pixel_index_lt))]
    fn paint_line(self, line: u8, picture: &mut [u8; 23040])
        ensures { picture.new ≡ painted (λ (L : ℕ). eqb L line) (record { video = self.entry.video; ram = self.entry.ram.now }) picture.old }
    {
        let video = self.video;
        let ram = self.ram;
        let p = scanline::read_pointer(video.pointer_word(ram, line));
        let first = line as usize * 90;
        let bytes = &mut picture[first..first + 90];
        for (i, byte) in bytes.iter_mut().enumerate() {
            let at = scanline::pixel_index(p, i as u8);
            *byte = scanline::drawn_byte(video.control, ram[at]);
        }
    }

    // The lines from 0 to before `end`: counted, since a search for each, as in `paint_set`, takes a draw 9 % more instructions.
    pub(crate) fn paint_first(self, end: u16, picture: &mut [u8; 23040])
        requires { end ≤ 256 }
        ensures { picture.new ≡ painted (λ (L : ℕ). ltb L end) (record { video = self.entry.video; ram = self.entry.ram.now }) picture.old }
    {
        for line in 0..end {
            self.paint_line(line as u8, picture);
        }
    }

    // The lines of a set. (Document 01: "trailing zeros find the next line"; each search starts past the line found before.)
    pub(crate) fn paint_set(self, lines: LineSet, picture: &mut [u8; 23040])
        ensures { picture.new ≡ painted (member lines) (record { video = self.entry.video; ram = self.entry.ram.now }) picture.old }
    {
        let mut n: u16 = 0;
        while let Some(line) = lines.next(n) {
            self.paint_line(line as u8, picture);
            n = line + 1;
        }
    }
}
