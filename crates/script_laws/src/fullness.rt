//! Which indexes are told full.

ghost use Rattle.script_laws.specs.FullIndexes.{AnIndexWithRoomIsNeverFull, ThreeBlocksAreSummarized};

use index_steps::tuples_of_an_index_are_lawful;

/// A plain line that summarizes a table in an index without a tuple, on one page of which there is room for a tuple of each range, counts all
/// ranges of the table, or is told at its submission that memory is short. It isn't told that the index is full: not where two pages are left
/// for the tuples of three ranges. Does nothing.
pub fn an_index_with_room_is_never_full()
    ensures ranges { AnIndexWithRoomIsNeverFull }
    ensures three { ThreeBlocksAreSummarized }
{
    tuples_of_an_index_are_lawful();
}
