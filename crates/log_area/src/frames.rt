//! The frames that were read from an area.

ghost use Rattle.std.specs.Prelude.{◌≡◌, ◌<◌, Some, length, slice_get};
ghost use Rattle.log_area.specs.Opened.{IsWhole, frame_in, frames_in};
ghost use Rattle.std.specs.List.{AllByRecursion};

use byte_fields::{get_u16, get_u32};
use std::marker::Model;

/// The opened frames of an area, in their order. Their bytes stand in one piece, and an offset of 4 bytes for each gate.
#[derive(Debug, Drop)]
pub struct Frames {
    bytes: Vec<u8>,
    gates: Vec<u32>,
}

impl Model for Frames {
    ghost use Rattle.std.specs.Prelude.{List, length};
    ghost use Rattle.std.specs.List.{AllByRecursion};
    ghost use Rattle.log_area.specs.Frames.{LogFrame};
    ghost use Rattle.log_area.specs.Opened.{IsWhole, frames_in};

    ghost Value = { List LogFrame };

    ghost view = { λ f. frames_in f.bytes.items f.gates.items };

    ghost invariant = { λ f. AllByRecursion (IsWhole f.bytes.items) f.gates.items };
}

impl Frames {
    /// The frames of these bytes whose gates stand at these offsets.
    pub(crate) fn of(bytes: Vec<u8>, gates: Vec<u32>) -> Frames
        requires { AllByRecursion (IsWhole bytes.items) gates.items }
        ensures { result ≡ frames_in bytes.items gates.items }
    {
        Frames { bytes, gates }
    }

    /// How many frames there are.
    pub fn len(&self) -> usize
        ensures { result ≡ length self.now }
    {
        self.gates.len()
    }

    /// The changes of the frame of that number, from 0 on, and their count.
    pub fn frame(&self, at: usize) -> (&[u8], u16)
        requires { at < length self.now }
        ensures { slice_get self.now at ≡ Some (record { changes = result.0.now; count = result.1 }) }
    {
        let gates = &self.gates;
        frame_behind(&self.bytes, gates[at] as usize)
    }
}

/// The changes and their count of the frame whose gate stands at an offset.
fn frame_behind(bytes: &[u8], gate: usize) -> (&[u8], u16)
    requires { IsWhole bytes.now gate }
    ensures { frame_in bytes.now gate ≡ record { changes = result.0.now; count = result.1 } }
{
    let length = get_u32(bytes, gate + 1) as usize;
    let count = get_u16(bytes, gate + 5);
    (&bytes[gate + 7..gate + 7 + length], count)
}
