//! Laws of steps that aren't done. None does anything.

ghost use Rattle.session_parts.specs.UndoneLaws.{FitOfParts, FitOfStores, RefusedIsUndone, SpentIsUndone, StepsBehind};

use crate::parts::Parts;
use disk_trait::Disk;

/// A step that the pages refuse is undone, and so is one whose requests the journal has no room for; a step may be made behind a call that changes no
/// page; and what a step needs on any disk is a matter of the parts and of what its session has in hand.
pub fn an_undone_step_changes_nothing<D: Disk + Drop>(_parts: &Parts<D>)
    ensures refused { RefusedIsUndone D.told }
    ensures spent { SpentIsUndone D.told }
    ensures behind { StepsBehind D.told }
    ensures parts { FitOfParts D.told }
    ensures stores { FitOfStores D.told }
{}
