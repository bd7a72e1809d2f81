//! The summary of the minmax class.

ghost use Rattle.std.specs.Prelude.{◌≡◌, ◌≢◌, ◌≤ℤ◌, true, false};
ghost use Rattle.opclass_minmax.specs.Bounds.{NothingYet, Between, IsSummary, widened};
ghost use Rattle.opclass_minmax.specs.Consistent.{consistent, condition_holds};
ghost use Rattle.opclass_minmax.specs.Kept.{bounds_of};

use block_model::Cond;
use opclass_api::key_holds;
use std::marker::Model;

/// The least and the greatest of some values.
#[derive(Clone, Copy, Debug, PartialEq, Eq)]
pub(crate) struct Extremes {
    pub(crate) least: i64,
    pub(crate) greatest: i64,
}

/// Nothing yet, or the least and the greatest value.
#[derive(Debug, Drop)]
pub struct Summary {
    kept: Option<Extremes>,
}

impl Model for Summary {
    ghost use Rattle.opclass_minmax.specs.Bounds.{Bounds, IsSummary};

    ghost Value = { Bounds };

    ghost use Rattle.opclass_minmax.specs.Kept.{bounds_of};

    ghost view = { λ a. bounds_of a.kept };

    ghost invariant = { λ a. IsSummary (bounds_of a.kept) };
}

impl Summary {
    /// The summary of no value. Takes no memory.
    pub fn new() -> Summary
        ensures { result ≡ NothingYet }
    {
        Summary { kept: None }
    }

    /// The summary of two values, the first not above the second.
    pub(crate) fn of(least: i64, greatest: i64) -> Summary
        requires { least ≤ℤ greatest }
        ensures { result ≡ Between least greatest }
    {
        Summary {
            kept: Some(Extremes { least, greatest }),
        }
    }

    /// Does nothing; tells its caller that every summary is in order.
    pub fn known(&self)
        ensures { IsSummary self.now }
    {
        // The toolchain opens the invariant where a field is read.
        let _ = &self.kept;
    }

    /// Widens the bounds to two further values, the first not above the second; answers whether they changed.
    pub(crate) fn widen(&mut self, low: i64, high: i64) -> bool
        requires { low ≤ℤ high }
        ensures widened { self.new ≡ widened self.old low high }
        ensures same { result ≡ false → self.new ≡ self.old }
        ensures changed { result ≡ true → self.new ≢ self.old }
    {
        match self.kept {
            None => {
                self.kept = Some(Extremes {
                    least: low,
                    greatest: high,
                });
                true
            }
            Some(kept) => {
                self.kept = Some(Extremes {
                    least: kept.least.min(low),
                    greatest: kept.greatest.max(high),
                });
                low < kept.least || kept.greatest < high
            }
        }
    }

    /// The bounds: None where there is nothing yet.
    pub(crate) fn extremes(&self) -> Option<Extremes>
        ensures bounds { bounds_of result ≡ self.now }
        ensures known { IsSummary self.now }
    {
        self.kept
    }

    /// Whether each condition may be met by a value between the bounds.
    pub(crate) fn hold(&self, conds: &[Cond]) -> bool
        ensures { result ≡ consistent self.now conds.now }
    {
        conds.iter().all(|cond| self.holds(cond))
    }

    fn holds(&self, cond: &Cond) -> bool
        ensures { result ≡ condition_holds self.now cond.now }
    {
        match self.kept {
            None => false,
            Some(kept) => key_holds(kept.least, kept.greatest, cond.op, &cond.key),
        }
    }
}
