//! A reader of lines.

ghost use Rattle.std.specs.Prelude.{◌≡◌, ◌≢◌, ◌≤◌, [], IfOk, IfSome, IsErrOf, IsOk, length};
ghost use Rattle.std.specs.Borrow.{sem};
ghost use Rattle.std.specs.Io.BufRead.{Rests};
ghost use Rattle.block_model.specs.Causes.{Rose};

use crate::cursor::{Cursor, SIZE, advance};
use crate::end::{LinesEnd, Stage};
use block_model::NoMemory;
use io_traits::Source;
use std::alloc::Global;
use std::marker::Model;

/// Reads a script line by line. A line ends at a line feed, and the last one may lack it; of a line of more than 65535
/// bytes the first 65536 are handed out.
#[derive(Drop)]
pub struct Lines {
    buffer: Vec<u8>,
    /// Where the lines stand in the buffer.
    cursor: Cursor,
}

impl Model for Lines {
    ghost use Rattle.script_run.specs.Reading.{LineReading};

    ghost Value = { LineReading };

    ghost use Rattle.script_run.specs.Buffered.{reading, IsCursor};

    ghost view = { λ s. reading s.buffer.items s.cursor };

    ghost invariant = { λ s. IsCursor s.buffer.items s.cursor };
}

impl Lines {
    ghost use Rattle.script_run.specs.Reading.{fresh, HasRead, Next};
    ghost use Rattle.script_run.specs.contracts.reader.Lines.{the_row};
    ghost use Rattle.script_run.specs.declared.cursor.TheConstants.{KEPT};

    /// A reader that takes up to `limit` bytes. Takes the one buffer, of fixed size, that the reader ever needs.
    pub fn new(alloc: Global, limit: u64) -> Result<Lines, NoMemory>
        ensures limit { IfOk result (λ lines. lines ≡ fresh limit) }
        ensures nothing { IfOk result (λ lines. HasRead lines [] []) }
    {
        let buffer = vec![in alloc; 0u8; SIZE]?;
        let cursor = Cursor {
            start: 0,
            end: 0,
            taken: 0,
            limit,
            stage: Stage::Open,
        };
        Ok(Lines { buffer, cursor })
    }

    /// The next line, or none where the end was seen and all lines were handed out. `Read` comes only where a read has
    /// failed: each whole line that came was handed out, and a further call goes on where this one stopped. `Spent` comes
    /// where `limit` bytes were taken and another came, and then again at each further call.
    pub fn next<S: Source>(&mut self, source: &mut S) -> Result<Option<&[u8]>, LinesEnd>
        // The lines of the script come one after the other, and an end only where each line before it was handed out.
        ensures* next { sem 𝓛 (Rests the_row self.entry (λ lines. Next self.old lines (S.left source.old) (S.left source.new) result)) }
        ensures short { IfOk result (λ line. IfSome line (λ bytes. length bytes.now ≤ KEPT)) }

        // Nothing is read while a whole line is ready, nor once the end or a byte past the limit was seen.
        ensures waiting { self.old.ready ≢ [] → source.new ≡ source.old }
        ensures stopped { self.old.stage ≢ Stage.Open → source.new ≡ source.old }
        ensures ended { self.old.stage ≡ Stage.Ended → IsOk result }
        ensures later { S.faults source.old ≤ S.faults source.new }
        ensures cause { IsErrOf result LinesEnd.Read → Rose (S.faults source.old) (S.faults source.new) }
    {
        match advance(&mut self.buffer, &mut self.cursor, source)? {
            Some(span) => Ok(Some(&self.buffer[span.from..span.to])),
            None => Ok(None),
        }
    }
}
