//! Between which codes those of a column lie.

/// Between which codes those of a column lie, without that of NULL where they are those of numbers. What finds groups by codes
/// goes by it. Nothing rests on it.
#[derive(Clone, Copy, Debug, PartialEq, Eq, Drop)]
pub struct Span {
    least: u32,
    greatest: u32,
}

impl Span {
    /// That of no codes.
    pub(crate) fn none() -> Span {
        Span {
            least: u32::MAX,
            greatest: 0,
        }
    }

    /// That of the codes of a list of so many cells.
    pub(crate) fn of_list(count: usize) -> Span {
        Span {
            least: 0,
            greatest: u32::try_from(count).unwrap_or(u32::MAX),
        }
    }

    /// That of these codes and of one more, which is a number's or NULL's.
    pub(crate) fn with(self, code: u32) -> Span {
        if code == 0 {
            return self;
        }
        Span {
            least: self.least.min(code),
            greatest: self.greatest.max(code),
        }
    }

    /// That of these codes and of the other one's.
    pub(crate) fn and(self, other: Span) -> Span {
        Span {
            least: self.least.min(other.least),
            greatest: self.greatest.max(other.greatest),
        }
    }

    /// How many places the codes take.
    pub fn width(self) -> usize {
        (self.greatest as usize).saturating_sub(self.least as usize) + 2
    }

    /// The place of a code, which is less than the width where it is one of those.
    pub fn place(self, code: u32) -> usize {
        if code < self.least {
            0
        } else {
            (code - self.least) as usize + 1
        }
    }
}
