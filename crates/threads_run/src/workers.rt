//! The workers of a script's sessions.

ghost use Rattle.std.specs.Prelude.{◌≡◌, ℕ, ◌+◌, ◌<◌, ◌^◌, All, IfOk, OnOk, length, slice_index_or, false};
ghost use Rattle.std.specs.List.{sum_by};
ghost use Rattle.plain_script.specs.SessionLines.{numbers_of};

use block_model::{NoMemory, Numbers};
use plain_script::ScriptLines;
use session_threads::WorkerEnd;
use std::alloc::Global;
use std::sync::ledger::{Ledger, Share};

/// A worker for each session of the script, with the numbers of its lines and one part of each book. None of them has begun. Takes memory for them.
pub(crate) fn idle_workers<L: Ledger, E: Ledger>(
    alloc: Global,
    lines: &ScriptLines,
    share: &mut Share<L>,
    end: &mut Share<E>,
) -> Result<Vec<WorkerEnd<L, E>>, NoMemory>
    requires few { length lines.now.script.names < 2 ^ 32 }
    requires parts { (share.old.parts ≡ length lines.now.script.names + 1) × (end.old.parts ≡ length lines.now.script.names + 1) }
    requires fresh { (share.old.amount ≡ 0) × (end.old.amount ≡ 0) }
    ensures count { IfOk result (λ ws. length ws.items ≡ length lines.now.script.names) }
    ensures fresh { IfOk result (λ ws. All (λ w. (w.done ≡ 0) × (w.ended ≡ false) × (w.share.amount ≡ 0) × (w.end.amount ≡ 0)) ws.items) }
    ensures parts { IfOk result (λ ws. All (λ w. (w.share.parts ≡ 1) × (w.end.parts ≡ 1)) ws.items) }
    ensures lines { IfOk result (λ ws. (i : ℕ) (d : _) → i < length ws.items → ((slice_index_or ws.items i d).session ≡ i) × ((slice_index_or ws.items i d).lines ≡ numbers_of i lines.now.script.lines)) }
    ensures kept { OnOk result ((share.new.parts ≡ 1) × (end.new.parts ≡ 1) × (share.new.amount ≡ 0) × (end.new.amount ≡ 0)) }
{
    let mut workers = Vec::new(alloc);
    for session in 0..lines.sessions() {
        let numbers = lines.lines_of_session(alloc, session as u32)?;
        workers.push(idle(
            session as u32,
            numbers,
            share.split_off(1, 0),
            end.split_off(1, 0),
        ))?;
    }
    Ok(workers)
}

/// A worker that hasn't begun.
fn idle<L: Ledger, E: Ledger>(
    session: u32,
    lines: Numbers,
    share: Share<L>,
    end: Share<E>,
) -> WorkerEnd<L, E>
    ensures { (result.session ≡ session) × (result.lines ≡ lines) × (result.done ≡ 0) × (result.ended ≡ false) × (result.share ≡ share) × (result.end ≡ end) }
{
    WorkerEnd {
        session,
        lines,
        done: 0,
        ended: false,
        share,
        end,
    }
}

/// What all workers' shares are together, with those that were kept.
pub(crate) fn joined<L: Ledger, E: Ledger>(
    workers: Vec<WorkerEnd<L, E>>,
    kept: (Share<L>, Share<E>),
) -> (Share<L>, Share<E>)
    ensures parts { (result.0.parts ≡ kept.0.parts + sum_by (λ w. w.share.parts) workers.items) × (result.1.parts ≡ kept.1.parts + sum_by (λ w. w.end.parts) workers.items) }
    ensures answers { result.0.amount ≡ kept.0.amount + sum_by (λ w. w.share.amount) workers.items }
    ensures ends { result.1.amount ≡ kept.1.amount + sum_by (λ w. w.end.amount) workers.items }
{
    let mut left = workers;
    let (mut share, mut end) = kept;
    'left: while let Some(worker) = left.pop() {
        share.merge(worker.share);
        end.merge(worker.end);
    }
    (share, end)
}
