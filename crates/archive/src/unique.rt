// The pairs of bench and number of entries: which entry has one, and whether every pair stands once. For the latter four entries at a time
// are held against those before them, in one pass that is not left early, so that a run takes several entries at once: half the time (decision 37).
ghost use Rattle.std.specs.Prelude.{◌+◌, ◌*◌, ◌≤◌, length, not, ◌&&◌, ◌||◌, ◌≡◌};
ghost use Rattle.facts.specs.Tests.{every, first_of};
ghost use Rattle.archive.specs.Sound.{has_pair, is_new, fresh};
ghost use Rattle.archive.specs.Rows.{named, pair_in, same_pair};

use crate::layout::Row;
use crate::numbers::Pair;

// Whether an entry has a pair.
#[tactic(auto, unfolding(crate::specs::Rows::same_pair))]
fn has_pair(row: &Row, pair: Pair) -> bool
    ensures { result ≡ same_pair (pair_in row.now) pair }
{
    Pair::read(row) == pair
}

// The first of the entries that has a pair.
pub(crate) fn index_of(rows: &[Row], pair: Pair) -> Option<usize>
    ensures { result ≡ first_of (has_pair (named rows.now) pair.bench pair.number) 0 (length rows.now) }
{
    rows.iter().position(|row| has_pair(row, pair))
}

// Whether an entry has one of four pairs. It looks at all four, so that a run of it takes several entries at once.
fn one_has(row: &Row, p: Pair, q: Pair, r: Pair, s: Pair) -> bool
    ensures { result ≡ (same_pair (pair_in row.now) p || same_pair (pair_in row.now) q || same_pair (pair_in row.now) r || same_pair (pair_in row.now) s) }
{
    has_pair(row, p) | has_pair(row, q) | has_pair(row, r) | has_pair(row, s)
}

// Whether no entry has one of four pairs.
fn four_new(rows: &[Row], p: Pair, q: Pair, r: Pair, s: Pair) -> bool
    ensures { result ≡ (is_new (named rows.now) p.bench p.number (length rows.now) && is_new (named rows.now) q.bench q.number (length rows.now) && is_new (named rows.now) r.bench r.number (length rows.now) && is_new (named rows.now) s.bench s.number (length rows.now)) }
{
    let mut seen = false;
    for row in rows {
        seen |= one_has(row, p, q, r, s);
    }
    !seen
}

// Whether each of four entries has another pair than those of them that stand before it.
#[tactic(auto, unfolding(crate::specs::Rows::same_pair, crate::specs::Rows::pair_in, crate::specs::Rows::named, crate::specs::Sound::has_pair))]
fn apart(rows: &[Row], k: usize, q: Pair, r: Pair, s: Pair) -> bool
    requires { k + 3 ≤ length rows.now }
    ensures { result ≡ not (has_pair (named rows.now) q.bench q.number k || (has_pair (named rows.now) r.bench r.number k || has_pair (named rows.now) r.bench r.number (k + 1)) || (has_pair (named rows.now) s.bench s.number k || has_pair (named rows.now) s.bench s.number (k + 1) || has_pair (named rows.now) s.bench s.number (k + 2))) }
{
    let second = has_pair(&rows[k], q);
    let third = has_pair(&rows[k], r) | has_pair(&rows[k + 1], r);
    let fourth = has_pair(&rows[k], s) | has_pair(&rows[k + 1], s) | has_pair(&rows[k + 2], s);
    !(second | third | fourth)
}

// Whether each of four entries has another pair than all before it.
fn four_fresh(rows: &[Row], k: usize) -> bool
    requires { k + 4 ≤ length rows.now }
    ensures { result ≡ every (fresh (named rows.now)) k 4 }
{
    let p = Pair::read(&rows[k]);
    let q = Pair::read(&rows[k + 1]);
    let r = Pair::read(&rows[k + 2]);
    let s = Pair::read(&rows[k + 3]);
    four_new(&rows[..k], p, q, r, s) && apart(rows, k, q, r, s)
}

// The same of n times four entries.
fn fours_fresh(rows: &[Row], from: usize, n: usize) -> bool
    requires { from + 4 * n ≤ length rows.now }
    ensures { result ≡ every (fresh (named rows.now)) from (4 * n) }
{
    for i in 0..n {
        if !four_fresh(rows, from + 4 * i) {
            return false;
        }
    }
    true
}

// The same of the first n entries, one by one: four times the same pair.
fn first_fresh(rows: &[Row], n: usize) -> bool
    requires { n ≤ length rows.now }
    ensures { result ≡ every (fresh (named rows.now)) 0 n }
{
    for k in 0..n {
        let p = Pair::read(&rows[k]);
        if !four_new(&rows[..k], p, p, p, p) {
            return false;
        }
    }
    true
}

// Whether the pairs stand once: those that are left over by fours come first, since these have the fewest before them.
pub(crate) fn all_fresh(rows: &[Row]) -> bool
    ensures { result ≡ every (fresh (named rows.now)) 0 (length rows.now) }
{
    let left = rows.len() % 4;
    first_fresh(rows, left) && fours_fresh(rows, left, rows.len() / 4)
}
