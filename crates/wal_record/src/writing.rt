//! Changes written as bytes.

ghost use Rattle.std.specs.Prelude.{◌≡◌, ◌≤◌, ◌<◌, ◌^◌, ◌+◌, ◌++◌, ◌∷◌, [], length, drop};
ghost use Rattle.block_model.specs.declared.limits.TheConstants.{PAGE_SIZE};
ghost use Rattle.std.specs.Int.{bytes_high_first};
ghost use Rattle.wal_record.specs.Changes.{AreSlots, HasSizes, IsChange, logged};
ghost use Rattle.wal_record.specs.ChangeBytes.{IsWritten, bytes_of, counted_slots, put_bytes, spot_bytes, tagged};

use crate::change::Change;
use crate::tag;
use block_model::{PAGE_SIZE, Place, Spot};
use byte_fields::{put_u16, put_u32, put_u64};

/// How many bytes the tag and the place have.
const HEAD: usize = 6;

/// How many bytes the change has.
#[tactic(auto, unfolding(crate::specs::ChangeBytes::bytes_of))]
pub fn size(change: &Change<'_>) -> usize
    requires { HasSizes (logged change.now) }
    ensures { result ≡ length (bytes_of (logged change.now)) }
{
    match change {
        Change::FullPage { .. } => HEAD + PAGE_SIZE,
        Change::PageStart { .. } => HEAD + 1,
        Change::RowPut { bytes, .. } => HEAD + 4 + bytes.len(),
        Change::RowMark { .. } => HEAD + 10,
        Change::RowsDrop { slots, .. } => HEAD + 2 + slots.len(),
        Change::TuplePut { bytes, .. } => HEAD + 4 + bytes.len(),
        Change::TupleReplace { bytes, .. } => HEAD + 4 + bytes.len(),
        Change::TupleDrop { slots, .. } => HEAD + 2 + slots.len(),
        Change::Evacuate { .. } | Change::MapPage { .. } => HEAD,
        Change::MapSet { .. } => HEAD + 8,
        Change::MetaSet { .. } => HEAD + 4,
        Change::StatusSet { .. } => HEAD + 3,
    }
}

/// Writes the bytes of the change to the front of `out`, and answers how many they are. All other bytes stay.
pub fn encode(change: &Change<'_>, out: &mut [u8]) -> usize
    requires sizes { HasSizes (logged change.now) }
    requires room { length (bytes_of (logged change.now)) ≤ length out.old }
    ensures size { result ≡ length (bytes_of (logged change.now)) }
    ensures written { out.new ≡ bytes_of (logged change.now) ++ drop result out.old }
    // So `decode` answers it again.
    ensures change { IsChange (logged change.now) }
{
    write_change(change, out);
    size(change)
}

#[tactic(auto, unfolding(crate::specs::ChangeBytes::bytes_of))]
fn write_change(change: &Change<'_>, out: &mut [u8])
    requires sizes { HasSizes (logged change.now) }
    requires room { length (bytes_of (logged change.now)) ≤ length out.old }
    ensures written { IsWritten out.old out.new (bytes_of (logged change.now)) }
    ensures change { IsChange (logged change.now) }
{
    match *change {
        Change::FullPage { place, bytes } => write_page(out, place, bytes),
        Change::PageStart { place, kind } => write_start(out, place, kind),
        Change::RowPut { place, slot, bytes } => write_put(out, tag::ROW_PUT, place, slot, bytes),
        Change::RowMark {
            place,
            slot,
            deleter,
        } => write_mark(out, place, slot, deleter),
        Change::RowsDrop { place, slots } => write_slots(out, tag::ROWS_DROP, place, slots),
        Change::TuplePut { place, slot, bytes } => {
            write_put(out, tag::TUPLE_PUT, place, slot, bytes)
        }
        Change::TupleReplace { place, slot, bytes } => {
            write_put(out, tag::TUPLE_REPLACE, place, slot, bytes)
        }
        Change::TupleDrop { place, slots } => write_slots(out, tag::TUPLE_DROP, place, slots),
        Change::Evacuate { place } => write_head(out, tag::EVACUATE, place),
        Change::MapPage { place } => write_head(out, tag::MAP_PAGE, place),
        Change::MapSet { place, entry, spot } => write_entry(out, place, entry, spot),
        Change::MetaSet { place, maps } => write_maps(out, place, maps),
        Change::StatusSet {
            place,
            entry,
            status,
        } => write_status(out, place, entry, status),
    }
}

fn write_head(out: &mut [u8], tag: u8, place: Place)
    requires { 6 ≤ length out.old }
    ensures written { IsWritten out.old out.new (tagged tag place []) }
    ensures block { place.block < 2 ^ 32 }
{
    out[0] = tag;
    out[1] = place.relation;
    put_u32(out, 2, place.block);
}

fn write_page(out: &mut [u8], place: Place, bytes: &[u8])
    requires page { length bytes.now ≡ PAGE_SIZE }
    requires room { 8198 ≤ length out.old }
    ensures written { IsWritten out.old out.new (tagged 1 place bytes.now) }
    ensures block { place.block < 2 ^ 32 }
{
    write_head(out, tag::FULL_PAGE, place);
    out[HEAD..HEAD + bytes.len()].copy_from_slice(bytes);
}

fn write_start(out: &mut [u8], place: Place, kind: u8)
    requires { 7 ≤ length out.old }
    ensures written { IsWritten out.old out.new (tagged 2 place (kind ∷ [])) }
    ensures block { place.block < 2 ^ 32 }
{
    write_head(out, tag::PAGE_START, place);
    out[HEAD] = kind;
}

fn write_put(out: &mut [u8], tag: u8, place: Place, slot: u16, bytes: &[u8])
    requires long { length bytes.now ≤ 65535 }
    requires room { 10 + length bytes.now ≤ length out.old }
    ensures written { IsWritten out.old out.new (tagged tag place (put_bytes slot bytes.now)) }
    ensures block { place.block < 2 ^ 32 }
    ensures numbers { slot < 2 ^ 16 }
{
    write_head(out, tag, place);
    put_u16(out, HEAD, slot);
    put_u16(out, HEAD + 2, bytes.len() as u16);
    out[HEAD + 4..HEAD + 4 + bytes.len()].copy_from_slice(bytes);
}

fn write_mark(out: &mut [u8], place: Place, slot: u16, deleter: u64)
    requires { 16 ≤ length out.old }
    ensures written { IsWritten out.old out.new (tagged 4 place (bytes_high_first 2 slot ++ bytes_high_first 8 deleter)) }
    ensures block { place.block < 2 ^ 32 }
    ensures numbers { (slot < 2 ^ 16) × (deleter < 2 ^ 64) }
{
    write_head(out, tag::ROW_MARK, place);
    put_u16(out, HEAD, slot);
    put_u64(out, HEAD + 2, deleter);
}

fn write_slots(out: &mut [u8], tag: u8, place: Place, slots: &[u8])
    requires slots { AreSlots slots.now }
    requires room { 8 + length slots.now ≤ length out.old }
    ensures written { IsWritten out.old out.new (tagged tag place (counted_slots slots.now)) }
    ensures block { place.block < 2 ^ 32 }
{
    write_head(out, tag, place);
    put_u16(out, HEAD, (slots.len() / 2) as u16);
    out[HEAD + 2..HEAD + 2 + slots.len()].copy_from_slice(slots);
}

fn write_entry(out: &mut [u8], place: Place, entry: u16, spot: Spot)
    requires { 14 ≤ length out.old }
    ensures written { IsWritten out.old out.new (tagged 11 place (bytes_high_first 2 entry ++ spot_bytes spot)) }
    ensures block { place.block < 2 ^ 32 }
    ensures numbers { (entry < 2 ^ 16) × (spot.block < 2 ^ 32) × (spot.slot < 2 ^ 16) }
{
    write_head(out, tag::MAP_SET, place);
    put_u16(out, HEAD, entry);
    put_u32(out, HEAD + 2, spot.block);
    put_u16(out, HEAD + 6, spot.slot);
}

fn write_maps(out: &mut [u8], place: Place, maps: u32)
    requires { 10 ≤ length out.old }
    ensures written { IsWritten out.old out.new (tagged 12 place (bytes_high_first 4 maps)) }
    ensures block { place.block < 2 ^ 32 }
    ensures numbers { maps < 2 ^ 32 }
{
    write_head(out, tag::META_SET, place);
    put_u32(out, HEAD, maps);
}

fn write_status(out: &mut [u8], place: Place, entry: u16, status: u8)
    requires { 9 ≤ length out.old }
    ensures written { IsWritten out.old out.new (tagged 13 place (bytes_high_first 2 entry ++ status ∷ [])) }
    ensures block { place.block < 2 ^ 32 }
    ensures numbers { entry < 2 ^ 16 }
{
    write_head(out, tag::STATUS_SET, place);
    put_u16(out, HEAD, entry);
    out[HEAD + 2] = status;
}
