//! Summarise locks of tables, whose holder has the right to maintain the table's indexes.

ghost use Rattle.std.specs.Prelude.{◌≡◌, ◌≢◌, ◌<◌, None, Some, ℕ, length, replicate, slice_set, OnOk, OnErr, IfOk, IfErr};
ghost use Rattle.page_locks.specs.RightHolders.{right_of};

use block_model::NoMemory;
use std::alloc::Global;
use std::marker::Model;

/// Who has the right to maintain the indexes of each table: the holder of its summarise lock.
#[derive(Debug, Drop)]
pub struct Rights {
    holders: Vec<Option<u32>>,
}

impl Model for Rights {
    ghost use Rattle.std.specs.Prelude.{List, Option, ℕ};

    ghost Value = { List (Option ℕ) };

    ghost view = { λ a. a.holders.items };
}

impl Rights {
    /// Nobody has the right, of so many tables. All memory is taken here. `Err` is want of memory.
    pub fn new(alloc: Global, tables: u8) -> Result<Rights, NoMemory>
        ensures { IfOk result (λ rights. rights ≡ replicate tables None) }
    {
        let holders = vec![in alloc; None; usize::from(tables)]?;
        Ok(Rights { holders })
    }

    /// The actor takes the right of the table, which it may hold already. `Err` comes exactly where another actor holds it,
    /// and names that one; nothing is changed then. Takes no memory.
    pub fn take(&mut self, table: u8, actor: u32) -> Result<(), u32>
        requires { table < length self.old }
        ensures taken { OnOk result (self.new ≡ slice_set self.old table (Some actor)) }
        ensures free { OnOk result ((n : ℕ) → right_of self.old table ≡ Some n → n ≡ actor) }
        ensures refused { IfErr result (λ by. right_of self.old table ≡ Some by) }
        ensures another { IfErr result (λ by. by ≢ actor) }
        ensures same { OnErr result (self.new ≡ self.old) }
    {
        let at = usize::from(table);
        match self.holders[at] {
            Some(by) if by != actor => Err(by),
            _ => {
                self.holders[at] = Some(actor);
                Ok(())
            }
        }
    }

    /// The actor that has the right of the table, if one has it.
    pub fn holder(&self, table: u8) -> Option<u32>
        requires { table < length self.now }
        ensures { result ≡ right_of self.now table }
    {
        self.holders[usize::from(table)]
    }

    /// The actor gives the right of the table. Where it doesn't hold it nothing is changed.
    pub fn give(&mut self, table: u8, actor: u32)
        requires { table < length self.old }
        ensures given { right_of self.old table ≡ Some actor → self.new ≡ slice_set self.old table None }
        ensures same { right_of self.old table ≢ Some actor → self.new ≡ self.old }
    {
        let at = usize::from(table);
        match self.holders[at] {
            Some(by) if by == actor => self.holders[at] = None,
            _ => {}
        }
    }
}
