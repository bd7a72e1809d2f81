//! Runs of two statements beside each other, in each order of their steps.

use crate::answer::{Streams, run_on};
use crate::difference::{Difference, numbers_differ};
use crate::disks::new_disk;
use crate::row::{Command, Run, Side};
use block_model::NoMemory;
use brin_app::DONE;
use std::alloc::Global;
use std::str;
use std::sync::Wait;
use std::thread::Threads;

/// Two statements, of so many steps together, in a row's run.
#[derive(Clone, Copy)]
struct Pair<'a> {
    alloc: Global,
    run: &'a Run<'a>,
    command: &'a Command<'a>,
    first: Side<'a>,
    second: Side<'a>,
    steps: u32,
}

/// Makes the run in each order of the steps.
pub fn check_orders<'a, R: Threads + Wait + Sync>(
    rt: &R,
    alloc: Global,
    run: &'a Run<'a>,
    command: &'a Command<'a>,
) -> Result<Option<Difference>, NoMemory> {
    let Some((first, second)) = run.sides else {
        return Ok(None);
    };
    let steps = first.steps.saturating_add(second.steps);
    let pair = Pair {
        alloc,
        run,
        command,
        first,
        second,
        steps,
    };
    match 1u32.checked_shl(steps) {
        Some(end) => pair.check(rt, end),
        None => numbers_differ(alloc, "steps", 31, u64::from(steps)),
    }
}

impl Pair<'_> {
    /// Makes the run in each order. In it the first statement steps where a bit is set.
    fn check<R: Threads + Wait + Sync>(
        &self,
        rt: &R,
        end: u32,
    ) -> Result<Option<Difference>, NoMemory> {
        for order in 0..end {
            if order.count_ones() == self.first.steps
                && let Some(difference) = self.check_order(rt, order)?
            {
                return Ok(Some(difference));
            }
        }
        Ok(None)
    }

    fn check_order<R: Threads + Wait + Sync>(
        &self,
        rt: &R,
        order: u32,
    ) -> Result<Option<Difference>, NoMemory> {
        let alloc = self.alloc;
        let script = self.script(order)?;
        let streams = Streams::large(65536);
        let disk = new_disk(alloc, self.command)?;
        let words = &self.command.words;
        let (answer, _) = run_on(rt, alloc, words, script.as_slice(), &streams, disk)?;
        let place = format!(in alloc; "order {order:b}")?;
        let place = place.as_str();
        if answer.status != DONE {
            return numbers_differ(alloc, place, 0, u64::from(answer.status));
        }
        self.check_replies(place, answer.bytes())
    }

    /// The script of an order.
    fn script(&self, order: u32) -> Result<Vec<u8>, NoMemory> {
        let mut script = Vec::from_slice(self.alloc, self.run.lines.script.as_slice())?;
        let mut left = order;
        for _ in 0..self.steps {
            let side = if left & 1 == 1 {
                self.first
            } else {
                self.second
            };
            say(&mut script, side, " step\n")?;
            left >>= 1;
        }
        // The first one may wait for the second.
        for side in [self.first, self.second, self.first] {
            say(&mut script, side, " finish\n")?;
        }
        script.extend_from_slice(self.run.behind.script.as_slice())?;
        Ok(script)
    }

    /// What is written begins with the replies of the lines before the steps, ends with those of the lines behind them, and has amid them each one that
    /// is told.
    fn check_replies(&self, place: &str, got: &[u8]) -> Result<Option<Difference>, NoMemory> {
        let text = str::from_utf8(got).unwrap_or("");
        let Some(rest) = got.strip_prefix(self.run.lines.replies.as_slice()) else {
            return self.differs(place, "the replies before the steps", text);
        };
        let Some(amid) = rest.strip_suffix(self.run.behind.replies.as_slice()) else {
            return self.differs(place, "the replies behind the steps", text);
        };
        let amid = str::from_utf8(amid).unwrap_or("");
        for reply in self.run.told.iter() {
            if !has_line(amid, reply) {
                return self.differs(place, reply, amid);
            }
        }
        Ok(None)
    }

    fn differs(
        &self,
        place: &str,
        wanted: &str,
        got: &str,
    ) -> Result<Option<Difference>, NoMemory> {
        let difference = Difference::new(self.alloc, place, wanted, got)?;
        Ok(Some(difference))
    }
}

/// Appends a line of the session.
fn say(script: &mut Vec<u8>, side: Side<'_>, word: &str) -> Result<(), NoMemory> {
    script.extend_from_slice(side.session.as_bytes())?;
    script.extend_from_slice(word.as_bytes())?;
    Ok(())
}

fn has_line(text: &str, wanted: &str) -> bool {
    for line in text.split('\n') {
        if line == wanted {
            return true;
        }
    }
    false
}
