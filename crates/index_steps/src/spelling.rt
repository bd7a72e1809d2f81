//! The bytes of a tuple that is to be put.

ghost use Rattle.std.specs.Prelude.{◌≡◌, ◌≤◌, List, length, take};
ghost use Rattle.range_store.specs.Tuples.{IsTupleSize};
ghost use Rattle.range_tuple.specs.TupleBytes.{tuple_bytes};
ghost use Rattle.range_tuple.specs.Tuples.{IndexedColumn, parts_of, tuple_room};

use range_tuple::RangeTuple;

/// Writes the bytes of the tuple to the front of `room`, and answers how many they are, which a page takes. Takes no memory.
pub fn spell(tuple: &RangeTuple, room: &mut [u8]) -> usize
    requires room { tuple_room tuple.now.columns ≤ length room.old }
    ensures bytes { take result room.new ≡ tuple_bytes tuple.now }
    ensures size { IsTupleSize (length (tuple_bytes tuple.now)) }
    ensures within { result ≤ length room.new }
    ensures same_room { length room.new ≡ length room.old }
{
    tuple.known();
    tuple.encode(room)
}

/// All tuples of one index need the same room. Does nothing.
pub fn tuples_of_an_index_need_one_room()
    ensures { (xs ys : List IndexedColumn) → parts_of xs ≡ parts_of ys → tuple_room xs ≡ tuple_room ys }
{}
