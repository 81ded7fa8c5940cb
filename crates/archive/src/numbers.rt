// The numbers of a header and of an entry.
ghost use Rattle.std.specs.Prelude.{◌+◌, ◌*◌, ◌≤◌, length, ◌≡◌};
ghost use Rattle.byte_rows.specs.Numbers.{at4};
ghost use Rattle.archive.specs.Sound.{good_bench, good_shown, header_of, header_good, entry_good};
ghost use Rattle.archive.specs.Rows.{entry_in, pair_in};

#[derive(Clone, Copy, PartialEq, Eq, Debug)]
pub struct Header {
    pub form: u32,
    pub count: u32,
    pub entries: u32,
    pub pictures: u32,
    pub end: u32,
}

#[derive(Clone, Copy, PartialEq, Eq, Debug, Default)]
pub struct Entry {
    pub bench: u32,
    pub number: u32,
    pub shown: u32,
    pub offset: u32,
}

// What a frame is asked for by; it stands once in an archive.
#[derive(Clone, Copy, PartialEq, Eq, Debug)]
pub struct Pair {
    pub bench: u32,
    pub number: u32,
}

// A number of four bytes, low first. (Not by from_le_bytes: no function of archives has a local array.)
fn joined(a: u8, b: u8, c: u8, d: u8) -> u32
    ensures { result ≡ a + 256 * b + 65536 * c + 16777216 * d }
{
    a as u32 + 256 * (b as u32) + 65536 * (c as u32) + 16777216 * (d as u32)
}

// The number whose bytes start at an index.
#[tactic(auto, unfolding(byte_rows::specs::Numbers::at4))]
fn read4(a: &[u8], at: usize) -> u32
    requires { at + 4 ≤ length a.now }
    ensures { result ≡ at4 a.now at }
{
    joined(a[at], a[at + 1], a[at + 2], a[at + 3])
}

pub(crate) fn good_bench(n: u32) -> bool
    ensures { result ≡ good_bench n }
{
    (1..=65535).contains(&n)
}

#[tactic(auto, unfolding(crate::specs::Sound::good_shown))]
pub(crate) fn good_shown(n: u32) -> bool
    ensures { result ≡ good_shown n }
{
    matches!(n, 200 | 256)
}

impl Header {
    // The header that an archive of n frames has.
    fn of_count(n: u32) -> Header
        requires { n ≤ 1000 }
        ensures { result ≡ record { form = 1; count = n; entries = 20; pictures = 20 + 16 * n; end = 20 + 23056 * n } }
    {
        Header {
            form: 1,
            count: n,
            entries: 20,
            pictures: 20 + 16 * n,
            end: 20 + 23056 * n,
        }
    }

    #[tactic(auto, unfolding(crate::specs::Sound::header_of))]
    pub(crate) fn read(a: &[u8]) -> Header
        requires { 20 ≤ length a.now }
        ensures { result ≡ header_of a.now }
    {
        Header {
            form: read4(a, 0),
            count: read4(a, 4),
            entries: read4(a, 8),
            pictures: read4(a, 12),
            end: read4(a, 16),
        }
    }

    // Whether it is the header of an archive of this length.
    #[tactic(auto, unfolding(crate::specs::Sound::header_good))]
    pub(crate) fn is_good(self, size: usize) -> bool
        ensures { result ≡ header_good self size }
    {
        self.count <= 1000 && self == Header::of_count(self.count) && size == self.end as usize
    }
}

impl Entry {
    // The entry at the front of some bytes.
    #[tactic(auto, unfolding(crate::specs::Rows::entry_in))]
    pub(crate) fn read(a: &[u8]) -> Entry
        requires { 16 ≤ length a.now }
        ensures { result ≡ entry_in a.now }
    {
        Entry {
            bench: read4(a, 0),
            number: read4(a, 4),
            shown: read4(a, 8),
            offset: read4(a, 12),
        }
    }

    // Whether its numbers are in range, by the offset that its picture must have.
    #[tactic(auto, unfolding(crate::specs::Sound::entry_good))]
    pub(crate) fn is_good(self, offset: usize) -> bool
        ensures { result ≡ entry_good self offset }
    {
        good_bench(self.bench) && good_shown(self.shown) && self.offset as usize == offset
    }
}

impl Pair {
    // The pair of the entry at the front of some bytes.
    #[tactic(auto, unfolding(crate::specs::Rows::pair_in))]
    pub(crate) fn read(a: &[u8]) -> Pair
        requires { 8 ≤ length a.now }
        ensures { result ≡ pair_in a.now }
    {
        Pair {
            bench: read4(a, 0),
            number: read4(a, 4),
        }
    }
}
