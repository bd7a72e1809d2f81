//! Which frames were used.

ghost use Rattle.std.specs.Prelude.{◌≡◌, ◌<◌, IfOk};

use block_model::NoMemory;
use std::alloc::Global;
use std::boxed::BoxedSlice;
use std::marker::Model;

/// Whether each frame was used since a hand passed it. Seen as the number of the frames.
#[derive(Debug, Drop)]
pub(crate) struct Uses {
    recent: BoxedSlice<bool>,
}

impl Model for Uses {
    ghost use Rattle.std.specs.Prelude.{ℕ, length};
    ghost use Rattle.std.specs.Box.{boxed_slice_items};

    ghost Value = { ℕ };

    ghost view = { λ a. length (boxed_slice_items a.recent) };
}

impl Uses {
    /// No frame was used. `Err` is want of memory.
    pub fn new(alloc: Global, frames: u32) -> Result<Uses, NoMemory>
        ensures { IfOk result (λ uses. uses ≡ frames) }
    {
        let recent = vec![in alloc; false; frames as usize]?;
        Ok(Uses {
            recent: recent.into_boxed_slice(),
        })
    }

    /// The frame is used.
    pub fn touch(&mut self, frame: u32)
        requires { frame < self.old }
        ensures { self.new ≡ self.old }
    {
        self.recent[frame as usize] = true;
    }

    /// A hand passes the frame. Tells whether it was used.
    pub fn pass(&mut self, frame: u32) -> bool
        requires { frame < self.old }
        ensures { self.new ≡ self.old }
    {
        let was_used = self.recent[frame as usize];
        self.recent[frame as usize] = false;
        was_used
    }
}
