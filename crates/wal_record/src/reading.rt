//! Changes read from bytes.

ghost use Rattle.std.specs.Prelude.{◌≡◌, ◌*◌, ◌+◌, ◌<◌, List, length, take, IfOk, IfErr};
ghost use Rattle.wal_record.specs.Changes.{LoggedChange, IsChange, logged};
ghost use Rattle.wal_record.specs.ChangeBytes.{IsFront, bytes_of, fault_place};
ghost use Rattle.wal_record.specs.Reading.{Gives, one_byte, number_at, part_at, place_at, spot_at, counted_at, slots_at, put_bytes_at, map_change_at, tuple_change_at, row_change_at, page_change_at, change_at};

use crate::change::{Change, Malformed};
use crate::tag;
use block_model::{PAGE_SIZE, Place, Spot};
use byte_fields::{get_u16, get_u32, get_u64};

/// The change that begins the bytes, and how many bytes it takes. It borrows from the bytes.
pub fn decode(bytes: &[u8]) -> Result<(Change<'_>, usize), Malformed>
    // What is answered is a change, and its bytes are the first of the bytes.
    ensures change { IfOk result (λ x. IsChange (logged x.0)) }
    ensures front { IfOk result (λ x. IsFront (bytes_of (logged x.0)) bytes.now) }
    ensures length { IfOk result (λ x. x.1 ≡ length (bytes_of (logged x.0))) }
    // A change that begins the bytes is the one that is answered.
    ensures only { (change : LoggedChange) → IsChange change → IsFront (bytes_of change) bytes.now → IfOk result (λ x. logged x.0 ≡ change) }
    // None is answered only where no change begins the bytes.
    ensures refused { IfErr result (λ e. (change : LoggedChange) → IsChange change → IsFront (bytes_of change) bytes.now → ⊥) }
    ensures place { IfErr result (λ e. e.at ≡ fault_place bytes.now) }
    // That is the first byte at which no change can go on.
    ensures goes_on { IfErr result (λ e. (change : LoggedChange) × IsChange change × IsFront (take e.at bytes.now) (bytes_of change)) }
    ensures stops { IfErr result (λ e. e.at < length bytes.now → (change : LoggedChange) → IsFront (take (e.at + 1) bytes.now) (bytes_of change) → ⊥) }
{
    match change_of(bytes) {
        Some((change, rest)) => Ok((change, bytes.len() - rest.len())),
        None => Err(Malformed {
            at: fault_place(bytes),
        }),
    }
}

/// Where bytes that no change begins can't go on.
fn fault_place(bytes: &[u8]) -> usize
    ensures { result ≡ fault_place bytes.now }
{
    match bytes {
        [tag::FULL_PAGE..=tag::STATUS_SET, ..] => bytes.len(),
        _ => 0,
    }
}

#[tactic(auto, unfolding(crate::specs::Reading::change_at))]
fn change_of(bytes: &[u8]) -> Option<(Change<'_>, &[u8])>
    ensures { Gives (λ x. (logged x.0, x.1.now)) result (change_at bytes.now) }
{
    let (tag, rest) = byte_of(bytes)?;
    let (place, rest) = place_of(rest)?;
    page_change_of(tag, place, rest)
}

#[tactic(auto, unfolding(crate::specs::Reading::page_change_at))]
fn page_change_of(tag: u8, place: Place, bytes: &[u8]) -> Option<(Change<'_>, &[u8])>
    ensures { Gives (λ x. (logged x.0, x.1.now)) result (page_change_at tag place bytes.now) }
{
    match tag {
        tag::FULL_PAGE => {
            let (page, rest) = part_of(bytes, PAGE_SIZE)?;
            Some((Change::FullPage { place, bytes: page }, rest))
        }
        tag::PAGE_START => {
            let (kind, rest) = byte_of(bytes)?;
            Some((Change::PageStart { place, kind }, rest))
        }
        _ => row_change_of(tag, place, bytes),
    }
}

#[tactic(auto, unfolding(crate::specs::Reading::row_change_at))]
fn row_change_of(tag: u8, place: Place, bytes: &[u8]) -> Option<(Change<'_>, &[u8])>
    ensures { Gives (λ x. (logged x.0, x.1.now)) result (row_change_at tag place bytes.now) }
{
    match tag {
        tag::ROW_PUT => {
            let (slot, bytes, rest) = put_bytes_of(bytes)?;
            Some((Change::RowPut { place, slot, bytes }, rest))
        }
        tag::ROW_MARK => {
            let (slot, rest) = u16_of(bytes)?;
            let (deleter, rest) = u64_of(rest)?;
            let change = Change::RowMark {
                place,
                slot,
                deleter,
            };
            Some((change, rest))
        }
        tag::ROWS_DROP => {
            let (slots, rest) = slots_of(bytes)?;
            Some((Change::RowsDrop { place, slots }, rest))
        }
        _ => tuple_change_of(tag, place, bytes),
    }
}

#[tactic(auto, unfolding(crate::specs::Reading::tuple_change_at))]
fn tuple_change_of(tag: u8, place: Place, bytes: &[u8]) -> Option<(Change<'_>, &[u8])>
    ensures { Gives (λ x. (logged x.0, x.1.now)) result (tuple_change_at tag place bytes.now) }
{
    match tag {
        tag::TUPLE_PUT => {
            let (slot, bytes, rest) = put_bytes_of(bytes)?;
            Some((Change::TuplePut { place, slot, bytes }, rest))
        }
        tag::TUPLE_REPLACE => {
            let (slot, bytes, rest) = put_bytes_of(bytes)?;
            Some((Change::TupleReplace { place, slot, bytes }, rest))
        }
        tag::TUPLE_DROP => {
            let (slots, rest) = slots_of(bytes)?;
            Some((Change::TupleDrop { place, slots }, rest))
        }
        _ => map_change_of(tag, place, bytes),
    }
}

#[tactic(auto, unfolding(crate::specs::Reading::map_change_at))]
fn map_change_of(tag: u8, place: Place, bytes: &[u8]) -> Option<(Change<'_>, &[u8])>
    ensures { Gives (λ x. (logged x.0, x.1.now)) result (map_change_at tag place bytes.now) }
{
    match tag {
        tag::EVACUATE => Some((Change::Evacuate { place }, bytes)),
        tag::MAP_PAGE => Some((Change::MapPage { place }, bytes)),
        tag::MAP_SET => {
            let (entry, rest) = u16_of(bytes)?;
            let (spot, rest) = spot_of(rest)?;
            Some((Change::MapSet { place, entry, spot }, rest))
        }
        tag::META_SET => {
            let (maps, rest) = u32_of(bytes)?;
            Some((Change::MetaSet { place, maps }, rest))
        }
        tag::STATUS_SET => {
            let (entry, rest) = u16_of(bytes)?;
            let (status, rest) = byte_of(rest)?;
            let change = Change::StatusSet {
                place,
                entry,
                status,
            };
            Some((change, rest))
        }
        _ => None,
    }
}

#[tactic(auto, unfolding(crate::specs::Reading::put_bytes_at))]
fn put_bytes_of(bytes: &[u8]) -> Option<(u16, &[u8], &[u8])>
    ensures { Gives (λ x. ((x.0, x.1.now), x.2.now)) result (put_bytes_at bytes.now) }
{
    let (slot, rest) = u16_of(bytes)?;
    let (counted, rest) = counted_of(rest)?;
    Some((slot, counted, rest))
}

#[tactic(auto, unfolding(crate::specs::Reading::counted_at))]
fn counted_of(bytes: &[u8]) -> Option<(&[u8], &[u8])>
    ensures { Gives (λ x. (x.0.now, x.1.now)) result (counted_at bytes.now) }
{
    let (count, rest) = u16_of(bytes)?;
    part_of(rest, usize::from(count))
}

#[tactic(auto, unfolding(crate::specs::Reading::slots_at))]
fn slots_of(bytes: &[u8]) -> Option<(&[u8], &[u8])>
    ensures { Gives (λ x. (x.0.now, x.1.now)) result (slots_at bytes.now) }
{
    let (count, rest) = u16_of(bytes)?;
    part_of(rest, 2 * usize::from(count))
}

#[tactic(auto, unfolding(crate::specs::Reading::place_at))]
fn place_of(bytes: &[u8]) -> Option<(Place, &[u8])>
    ensures { Gives (λ x. (x.0, x.1.now)) result (place_at bytes.now) }
{
    let (relation, rest) = byte_of(bytes)?;
    let (block, rest) = u32_of(rest)?;
    Some((Place { relation, block }, rest))
}

#[tactic(auto, unfolding(crate::specs::Reading::spot_at))]
fn spot_of(bytes: &[u8]) -> Option<(Spot, &[u8])>
    ensures { Gives (λ x. (x.0, x.1.now)) result (spot_at bytes.now) }
{
    let (block, rest) = u32_of(bytes)?;
    let (slot, rest) = u16_of(rest)?;
    Some((Spot { block, slot }, rest))
}

fn byte_of(bytes: &[u8]) -> Option<(u8, &[u8])>
    ensures { Gives (λ x. (x.0, x.1.now)) result (one_byte bytes.now) }
{
    match bytes {
        [byte, rest @ ..] => Some((*byte, rest)),
        [] => None,
    }
}

fn u16_of(bytes: &[u8]) -> Option<(u16, &[u8])>
    ensures { Gives (λ x. (x.0, x.1.now)) result (number_at 2 bytes.now) }
{
    if bytes.len() < 2 {
        return None;
    }
    Some((get_u16(bytes, 0), &bytes[2..]))
}

fn u32_of(bytes: &[u8]) -> Option<(u32, &[u8])>
    ensures { Gives (λ x. (x.0, x.1.now)) result (number_at 4 bytes.now) }
{
    if bytes.len() < 4 {
        return None;
    }
    Some((get_u32(bytes, 0), &bytes[4..]))
}

fn u64_of(bytes: &[u8]) -> Option<(u64, &[u8])>
    ensures { Gives (λ x. (x.0, x.1.now)) result (number_at 8 bytes.now) }
{
    if bytes.len() < 8 {
        return None;
    }
    Some((get_u64(bytes, 0), &bytes[8..]))
}

fn part_of(bytes: &[u8], long: usize) -> Option<(&[u8], &[u8])>
    ensures { Gives (λ x. (x.0.now, x.1.now)) result (part_at long bytes.now) }
{
    if bytes.len() < long {
        return None;
    }
    Some(bytes.split_at(long))
}
