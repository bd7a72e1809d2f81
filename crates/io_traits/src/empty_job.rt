//! A job without work.

ghost use Rattle.std.specs.Prelude.{◌≡◌, true, false};

use std::marker::Model;

/// The job of a Stepper that does all its work under the lock: it holds nothing but whether it was worked.
#[derive(Debug, Drop)]
pub struct EmptyJob {
    worked: bool,
}

impl Model for EmptyJob {
    ghost use Rattle.std.specs.Prelude.{Bool};

    ghost Value = { Bool };

    ghost view = { λ s. s.worked };
}

impl EmptyJob {
    /// A job that wasn't worked.
    pub fn new() -> EmptyJob
        ensures { result ≡ false }
    {
        EmptyJob { worked: false }
    }

    /// Works it.
    pub fn work(&mut self)
        ensures { self.new ≡ true }
    {
        self.worked = true;
    }
}
