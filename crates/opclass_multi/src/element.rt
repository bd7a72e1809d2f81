//! Elements: points and intervals.

ghost use Rattle.std.specs.Prelude.{◌≡◌};

/// The numbers from the least to the greatest: a point where they are the same, else an interval.
#[derive(Clone, Copy, Debug, PartialEq, Eq)]
pub struct Element {
    pub least: i64,
    pub greatest: i64,
}

impl Element {
    ghost use Rattle.opclass_multi.specs.Closing.{gap_between, spanned};
    ghost use Rattle.opclass_multi.specs.Elements.{point, weight, covers};
    ghost use Rattle.opclass_multi.specs.Encoding.{size_of};
    ghost use Rattle.opclass_multi.specs.Joined.{hull};

    /// A number alone.
    pub fn point(v: i64) -> Element
        ensures { result ≡ point v }
    {
        Element {
            least: v,
            greatest: v,
        }
    }

    /// What it counts: 1 as a point, 2 as an interval.
    pub fn weight(&self) -> usize
        ensures { result ≡ weight self.now }
    {
        if self.least < self.greatest { 2 } else { 1 }
    }

    /// How many bytes encode it: 9 a point, 17 an interval.
    pub(crate) fn size(&self) -> usize
        ensures { result ≡ size_of self.now }
    {
        if self.least < self.greatest { 17 } else { 9 }
    }

    /// Whether it holds the numbers from `p` to `q`.
    pub fn covers(&self, p: i64, q: i64) -> bool
        ensures { result ≡ covers p q self.now }
    {
        self.least <= p && q <= self.greatest
    }

    /// From the least to the greatest number of both.
    pub fn hull(self, other: Element) -> Element
        ensures { result ≡ hull self other }
    {
        Element {
            least: self.least.min(other.least),
            greatest: self.greatest.max(other.greatest),
        }
    }

    /// From its end to the start of a later one. It may pass an `i64`.
    pub(crate) fn gap_to(&self, later: Element) -> i128
        ensures { result ≡ gap_between self.now later }
    {
        i128::from(later.least) - i128::from(self.greatest)
    }

    /// From its start to the end of a later one.
    pub(crate) fn to(self, later: Element) -> Element
        ensures { result ≡ spanned self later }
    {
        Element {
            least: self.least,
            greatest: later.greatest,
        }
    }
}
