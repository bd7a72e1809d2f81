//! Laws of the stores that have the same parts. None does anything.

ghost use Rattle.session_parts.specs.StoreLaws.{FitEverywhere, HandChanges, OthersStayFit};

use crate::parts::Parts;
use disk_trait::Disk;

/// The session has the new statement in hand, and each other the one that it had.
pub fn one_hand_changes()
    ensures { HandChanges }
{}

/// Which names and other statements a store has doesn't matter to what a step needs of it on any disk.
pub fn a_fit_step_fits_everywhere<D: Disk + Drop>(_parts: &Parts<D>)
    ensures { FitEverywhere D.told }
{}

/// A session stays fit for its next step where another one steps, as long as the journal has what it is promised.
pub fn other_sessions_stay_fit<D: Disk + Drop>(_parts: &Parts<D>)
    ensures { OthersStayFit D.told }
{}
