//! The tags of changes.

ghost use Rattle.std.specs.Prelude.{◌≡◌, slice_index};
ghost use Rattle.wal_record.specs.ChangeBytes.{bytes_of};
ghost use Rattle.wal_record.specs.Changes.{logged};

use wal_record::Change;

/// The first of the change's bytes.
#[tactic(auto, unfolding(wal_record::specs::ChangeBytes::bytes_of))]
pub(crate) fn tag_of(change: &Change<'_>) -> u8
    ensures { result ≡ slice_index (bytes_of (logged change.now)) 0 }
{
    match *change {
        Change::FullPage { .. } => 1,
        Change::PageStart { .. } => 2,
        Change::RowPut { .. } => 3,
        Change::RowMark { .. } => 4,
        Change::RowsDrop { .. } => 5,
        Change::TuplePut { .. } => 6,
        Change::TupleReplace { .. } => 7,
        Change::TupleDrop { .. } => 8,
        Change::Evacuate { .. } => 9,
        Change::MapPage { .. } => 10,
        Change::MapSet { .. } => 11,
        Change::MetaSet { .. } => 12,
        Change::StatusSet { .. } => 13,
    }
}
