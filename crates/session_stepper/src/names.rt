//! What a call was given, carried into the type of what stands behind a lock.

ghost use Rattle.std.specs.Prelude.{ℕ, Bool, false, List, []};
ghost use Rattle.block_model.specs.DatabaseState.{DatabaseState, initial_state};
ghost use Rattle.store_layout.specs.DiskLayout.{DiskLayout};
ghost use Rattle.session_stepper.specs.NoLayout.{no_layout};

use std::marker::Brand;

/// It has no calls: contracts alone see its members.
pub trait Names {
    /// The disk's count of faults.
    ghost faults: { ℕ };
    /// Whether disk and source tell their bytes, and what the other members say is so.
    ghost honest: { Bool };
    /// The database that the store opens with.
    ghost opening: { DatabaseState };
    /// The store's tables, indexes and sizes.
    ghost layout: { DiskLayout };
    /// The bytes of the script.
    ghost script: { List ℕ };
}

/// The name of a call of which nothing is known but that the disk's count of faults was 0: for a disk that tells nothing, as a file. A disk whose count isn't 0 needs a
/// name of its own.
#[derive(Drop)]
pub struct Stranger;

impl Names for Stranger {
    ghost faults = { 0 };

    ghost honest = { false };

    ghost opening = { initial_state };

    ghost layout = { no_layout };

    ghost script = { [] };
}

/// A name of which each call may pick what it says, in the proof of the call.
impl Names for Brand {
    ghost faults = { 0 };

    ghost honest = { false };

    ghost opening = { initial_state };

    ghost layout = { no_layout };

    ghost script = { [] };
}
