//! The chosen area of a disk, read frame by frame.

ghost use Rattle.std.specs.Prelude.{◌≡◌, ◌≤◌, ◌<◌, ◌+◌, ◌*◌, ◌^◌, ◌++◌, ◌⊎◌, ℕ, List, IsTrue, length, take, drop, IfOk, IfErr, OnOk, slice_index};
ghost use Rattle.block_model.specs.Causes.{HasCause};
ghost use Rattle.byte_fields.specs.Fields.{AreBytes, field_at};
ghost use Rattle.block_model.specs.declared.limits.TheConstants.{PAGE_SIZE};
ghost use Rattle.log_area.specs.Frames.{HoldsFrames, length_at, row_of};
ghost use Rattle.log_area.specs.Reading.{Extends, IsFrontOf, ReadCause, FrameCause, AreaCause};

use crate::frame::{HEAD, OPEN};
use crate::frames::Frames;
use block_model::PAGE_SIZE;
use byte_fields::get_u32;
use disk_trait::{Disk, DiskFault};
use std::alloc::Global;
use thiserror::Error;

/// Where the area byte stands in the control page: an even one chooses area 0, an odd one area 1.
pub const AREA_BYTE: u64 = 1;

/// Why a log isn't started.
#[derive(Clone, Copy, Debug, Eq, Error, PartialEq)]
pub enum LogFault {
    /// The opened frame whose gate is this byte of the disk leaves its area no byte for the next gate.
    #[error("an opened frame at byte {at} passes its area")]
    Damaged { at: u64 },
    #[error("the disk failed")]
    Disk,
    #[error("out of memory")]
    Memory,
}

/// Where an area begins on the disk, and how many bytes it has.
#[derive(Clone, Copy, Debug)]
pub struct Area {
    pub start: u64,
    pub room: usize,
}

/// The area byte of the control page.
pub fn area_byte<D: Disk>(disk: &mut D) -> Result<u8, DiskFault>
    requires { 2 ≤ (D.told disk.old).size }
    ensures byte { IfOk result (λ byte. IsTrue (D.told disk.old).tells_contents → byte ≡ slice_index (D.told disk.old).contents 1) }
    ensures same { D.told disk.new ≡ record (D.told disk.old) { faults = (D.told disk.new).faults } }
    ensures cause { HasCause (D.told disk.old).faults (D.told disk.new).faults result }
{
    let mut byte = [0u8; 1];
    disk.read(AREA_BYTE, &mut byte)?;
    Ok(byte[0])
}

/// Reads a piece of the disk from an offset on, and puts it behind the bytes.
fn read_piece<D: Disk>(
    disk: &mut D,
    at: u64,
    piece: &mut [u8],
    bytes: &mut Vec<u8>,
) -> Result<(), LogFault>
    requires { at + length piece.old ≤ (D.told disk.old).size }
    ensures read { OnOk result (IsTrue (D.told disk.old).tells_contents → bytes.new.items ≡ bytes.old.items ++ take (length piece.old) (drop at (D.told disk.old).contents)) }
    ensures longer { OnOk result (length bytes.new.items ≡ length bytes.old.items + length piece.old) }
    ensures extends { OnOk result (Extends bytes.old.items bytes.new.items) }
    ensures same { D.told disk.new ≡ record (D.told disk.old) { faults = (D.told disk.new).faults } }
    ensures cause { ReadCause (D.told disk.old).faults (D.told disk.new).faults result }
{
    let Ok(()) = disk.read(at, piece) else {
        return Err(LogFault::Disk);
    };
    let Ok(()) = bytes.extend_from_slice(piece) else {
        return Err(LogFault::Memory);
    };
    Ok(())
}

/// Reads the next bytes of the area, a page of them or the rest.
fn read_more<D: Disk>(disk: &mut D, area: Area, bytes: &mut Vec<u8>) -> Result<(), LogFault>
    requires more { length bytes.old.items < area.room }
    requires size { area.start + area.room ≤ (D.told disk.old).size }
    requires known { IsTrue (D.told disk.old).tells_contents → IsFrontOf area.start bytes.old.items (D.told disk.old).contents }
    ensures known { OnOk result (IsTrue (D.told disk.old).tells_contents → IsFrontOf area.start bytes.new.items (D.told disk.old).contents) }
    ensures longer { OnOk result ((length bytes.old.items < length bytes.new.items) × (length bytes.new.items ≤ area.room)) }
    ensures extends { OnOk result (Extends bytes.old.items bytes.new.items) }
    ensures same { D.told disk.new ≡ record (D.told disk.old) { faults = (D.told disk.new).faults } }
    ensures cause { ReadCause (D.told disk.old).faults (D.told disk.new).faults result }
{
    let _size = disk.size();
    let mut page = [0u8; PAGE_SIZE];
    let count = (area.room - bytes.len()).min(PAGE_SIZE);
    let from = area.start + bytes.len() as u64;
    match read_piece(disk, from, &mut page[..count], bytes) {
        Ok(()) => Ok(()),
        Err(fault) => Err(fault),
    }
}

/// Reads on until so many bytes of the area are there.
fn read_up_to<D: Disk>(
    disk: &mut D,
    area: Area,
    bytes: &mut Vec<u8>,
    count: usize,
) -> Result<(), LogFault>
    requires within { count ≤ area.room }
    requires read { length bytes.old.items ≤ area.room }
    requires size { area.start + area.room ≤ (D.told disk.old).size }
    requires known { IsTrue (D.told disk.old).tells_contents → IsFrontOf area.start bytes.old.items (D.told disk.old).contents }
    ensures known { OnOk result (IsTrue (D.told disk.old).tells_contents → IsFrontOf area.start bytes.new.items (D.told disk.old).contents) }
    ensures enough { OnOk result ((count ≤ length bytes.new.items) × (length bytes.new.items ≤ area.room)) }
    ensures extends { OnOk result (Extends bytes.old.items bytes.new.items) }
    ensures same { D.told disk.new ≡ record (D.told disk.old) { faults = (D.told disk.new).faults } }
    ensures cause { ReadCause (D.told disk.old).faults (D.told disk.new).faults result }
{
    'pages: while bytes.len() < count {
        match read_more(disk, area, bytes) {
            Ok(()) => {}
            Err(fault) => return Err(fault),
        }
    }
    Ok(())
}

/// Reads the frame behind an open gate, and the next gate, and answers where that one stands in the area.
fn read_frame<D: Disk>(
    disk: &mut D,
    area: Area,
    bytes: &mut Vec<u8>,
    gate: usize,
) -> Result<usize, LogFault>
    requires gate { gate < length bytes.old.items }
    requires read { length bytes.old.items ≤ area.room }
    requires small { area.room < 2 ^ 32 }
    requires size { area.start + area.room ≤ (D.told disk.old).size }
    requires known { IsTrue (D.told disk.old).tells_contents → IsFrontOf area.start bytes.old.items (D.told disk.old).contents }
    ensures known { IfOk result (λ next. IsTrue (D.told disk.old).tells_contents → IsFrontOf area.start bytes.new.items (D.told disk.old).contents) }
    ensures next { IfOk result (λ next. next ≡ gate + 7 + length_at (drop (gate + 1) bytes.new.items)) }
    ensures enough { IfOk result (λ next. (next < length bytes.new.items) × (length bytes.new.items ≤ area.room)) }
    ensures extends { IfOk result (λ next. Extends bytes.old.items bytes.new.items) }
    ensures same { D.told disk.new ≡ record (D.told disk.old) { faults = (D.told disk.new).faults } }
    ensures cause { FrameCause area.start area.room gate (D.told disk.old) (D.told disk.new) result }
{
    let _size = disk.size();
    let damaged = LogFault::Damaged {
        at: area.start + gate as u64,
    };
    if area.room - gate <= HEAD {
        return Err(damaged);
    }
    match read_up_to(disk, area, bytes, gate + HEAD) {
        Ok(()) => {}
        Err(fault) => return Err(fault),
    }
    let next = gate + HEAD + get_u32(bytes, gate + 1) as usize;
    if next >= area.room {
        return Err(damaged);
    }
    match read_up_to(disk, area, bytes, next + 1) {
        Ok(()) => Ok(next),
        Err(fault) => Err(fault),
    }
}

/// The opened frames of the area, and how many bytes they take.
pub fn read_frames<D: Disk>(
    alloc: Global,
    disk: &mut D,
    area: Area,
) -> Result<(Frames, usize), LogFault>
    requires some { 0 < area.room }
    requires small { area.room < 2 ^ 32 }
    requires size { area.start + area.room ≤ (D.told disk.old).size }
    ensures holds { IfOk result (λ r. IsTrue (D.told disk.old).tells_contents → HoldsFrames (field_at (D.told disk.old).contents area.start area.room) r.0) }
    ensures used { IfOk result (λ r. (length (row_of r.0) ≡ r.1) × (r.1 < area.room)) }
    ensures same { D.told disk.new ≡ record (D.told disk.old) { faults = (D.told disk.new).faults } }
    ensures cause { AreaCause area.start area.room (D.told disk.old) (D.told disk.new) result }
{
    let mut bytes = Vec::new(alloc);
    let mut gates = Vec::new(alloc);
    let mut at = 0usize;
    match read_up_to(disk, area, &mut bytes, 1) {
        Ok(()) => {}
        Err(fault) => return Err(fault),
    }
    'frames: while bytes[at] == OPEN {
        let next = match read_frame(disk, area, &mut bytes, at) {
            Ok(next) => next,
            Err(fault) => return Err(fault),
        };
        bytes_known(&bytes);
        let Ok(()) = gates.push(at as u32) else {
            return Err(LogFault::Memory);
        };
        at = next;
    }
    Ok((Frames::of(bytes, gates), at))
}

/// What a slice's type says of its numbers: they are bytes.
fn bytes_known(bytes: &[u8])
    ensures { AreBytes bytes.now }
{
    let _ = bytes;
}
