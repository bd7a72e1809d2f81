//! Calls of which it is told beforehand which fail.

ghost use Rattle.std.specs.Prelude.{◌≡◌, ◌↔◌, ◌≤◌, ◌+◌, ◌∷◌, [], ◌++◌, Contains, IsTrue, OnOk, OnErr, Some};
ghost use Rattle.disk_trait.specs.Calls.{one_more, fresh, first_stop, FailsAt, FailsNext};

use block_model::NoMemory;
use std::marker::Model;

/// Which calls are to fail, how many were made, and how many of them failed.
#[derive(Debug, Drop)]
pub struct Calls {
    /// The numbers of calls that are to fail, from 1.
    fails: Vec<u64>,
    /// The number from which on all calls are to fail.
    stop: Option<u64>,
    made: u64,
    faults: u64,
}

impl Model for Calls {
    ghost use Rattle.disk_trait.specs.Calls.{CallCounts};

    ghost Value = { CallCounts };

    ghost view = { λ c. record { fails = c.fails.items; stop = c.stop; made = c.made; faults = c.faults } };
}

impl Calls {
    /// No calls so far. Those of the numbers `fails`, from 1, are to fail.
    pub fn new(fails: Vec<u64>) -> Calls
        ensures { result ≡ fresh fails.items }
    {
        Calls {
            fails,
            stop: None,
            made: 0,
            faults: 0,
        }
    }

    /// Lets the call of that number fail. After a refusal nothing is changed.
    pub fn fail(&mut self, call: u64) -> Result<(), NoMemory>
        ensures ok { OnOk result (self.new ≡ record self.old { fails = self.old.fails ++ call ∷ [] }) }
        ensures err { OnErr result (self.new ≡ self.old) }
    {
        self.fails.push(call)?;
        Ok(())
    }

    /// Lets the call of that number and all later ones fail. Of several numbers the first counts.
    pub fn stop_at(&mut self, call: u64)
        ensures { self.new ≡ record self.old { stop = Some (first_stop self.old.stop call) } }
    {
        let first = match self.stop {
            Some(earlier) => earlier.min(call),
            None => call,
        };
        self.stop = Some(first);
    }

    /// Counts a call, and says whether it is to fail.
    pub fn fails_now(&mut self) -> bool
        ensures fails { IsTrue result ↔ FailsNext self.old }
        ensures counted { self.new ≡ record self.old { made = one_more self.old.made } }
    {
        let fails = fails_behind(self.fails.as_slice(), self.stop, self.made);
        self.made = self.made.saturating_add(1);
        fails
    }

    /// Counts a fault.
    pub fn count_fault(&mut self)
        ensures counted { self.new ≡ record self.old { faults = one_more self.old.faults } }
        ensures later { self.old.faults ≤ self.new.faults }
    {
        self.faults = self.faults.saturating_add(1);
    }

    /// How many calls failed.
    pub fn faults(&self) -> u64
        ensures { result ≡ self.now.faults }
    {
        self.faults
    }
}

/// Whether the call behind so many is to fail.
fn fails_behind(fails: &[u64], stop: Option<u64>, made: u64) -> bool
    ensures { IsTrue result ↔ FailsAt fails.now stop (made + 1) }
{
    match stop {
        Some(first) if first <= made.saturating_add(1) => true,
        _ => is_next(fails, made),
    }
}

/// Whether the number behind so many is one of these.
fn is_next(numbers: &[u64], made: u64) -> bool
    ensures { IsTrue result ↔ Contains numbers.now (made + 1) }
{
    numbers
        .iter()
        .any(|number| *number > made && *number - made == 1)
}
