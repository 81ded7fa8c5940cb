// What was counted since the scene began.
use std::fmt;

// `wrong`: refreshes that answered wrongly; `differed`: pictures unlike a full draw; `spoilt`: refused calls that changed
// something.
#[derive(Clone, Copy, Default)]
pub(crate) struct Tally {
    pub steps: u64,
    pub refused: u64,
    pub refreshes: u64,
    pub lines: u64,
    pub wrong: u64,
    pub differed: u64,
    pub spoilt: u64,
}

// One more, where it happened.
pub(crate) fn count(n: &mut u64, happened: bool) {
    *n = n.wrapping_add(u64::from(happened));
}

// What was asked for, then what must be 0.
impl fmt::Display for Tally {
    fn fmt<W: fmt::Write>(&self, f: &mut fmt::Formatter<W>) -> fmt::Result {
        write!(f, "steps {}, refused {}", self.steps, self.refused)?;
        write!(f, ", refreshes {}, lines {}", self.refreshes, self.lines)?;
        write!(f, ", wrong {}, differed {}", self.wrong, self.differed)?;
        write!(f, ", spoilt {}", self.spoilt)
    }
}
