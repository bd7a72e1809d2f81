//! Which statements are taken, and what they are in hand then.

ghost use Rattle.std.specs.Prelude.{◌≡◌, ◌+◌, ◌<◌, length, true, None, Some, IfOk, IsSomeAnd, OnErr, OnOk, if◌then◌else◌, nat_le};
ghost use Rattle.block_model.specs.declared.reply.Refusal.TheVariants as refusals;
ghost use Rattle.script_semantics.specs.LineTexts.{block_refusal, may_want_memory};
ghost use Rattle.store_layout.specs.StatementFits.{IsQueryFor, IsStatementFor};
ghost use Rattle.session_core.specs.Slots.{IsKeptSlot, IsNoInsert, hand_of};
ghost use Rattle.session_core.specs.Submitting.{TakesHand, begin_refusal, end_refusal, request_refusal, standing_refusal};

use crate::slots::{Slot, hold_other, hold_put};
use crate::vacuuming::vacuum_hand;
use block_model::{NoMemory, Query, Refusal};
use disk_trait::Disk;
use session_parts::{ENTRIES_A_BEGIN, Explain, Hand, Parts};
use snapshot_core::Standing;
use store_layout::{Layout, MAX_SESSIONS, Statement};
use summarise_core::{Desummarise, Summarise, Wish};

/// Why a statement isn't taken whose block isn't below the greatest number of blocks.
pub(crate) fn block_refusal(layout: &Layout, statement: &Statement) -> Option<Refusal>
    ensures { result ≡ block_refusal layout.now.sizes.heap_blocks statement.now }
{
    let limit = layout.sizes().heap_blocks;
    match statement {
        Statement::Summarize {
            block: Some(block),
            ..
        } => past_limit(limit, *block),
        Statement::Desummarize { block, .. } => past_limit(limit, *block),
        _ => None,
    }
}

/// The refusal of a block that isn't below the limit.
fn past_limit(limit: u32, block: u32) -> Option<Refusal>
    ensures { result ≡ (if nat_le limit block then Some (refusals.Limit limit) else None) }
{
    if block < limit {
        return None;
    }
    Some(Refusal::Limit {
        limit: u64::from(limit),
    })
}

/// Why a statement isn't taken of a session that stands so.
pub(crate) fn standing_refusal(standing: Standing, statement: &Statement) -> Option<Refusal>
    ensures { result ≡ standing_refusal standing statement.now }
{
    match statement {
        Statement::Begin => begin_refusal(standing),
        Statement::Commit | Statement::Rollback => end_refusal(standing),
        Statement::Insert { .. } | Statement::Select(_) | Statement::Delete(_) => {
            request_refusal(standing)
        }
        _ => None,
    }
}

fn begin_refusal(standing: Standing) -> Option<Refusal>
    ensures { result ≡ begin_refusal standing }
{
    match standing {
        Standing::Idle => None,
        Standing::UnderWay | Standing::Failed => Some(Refusal::UnderWay),
    }
}

fn end_refusal(standing: Standing) -> Option<Refusal>
    ensures { result ≡ end_refusal standing }
{
    match standing {
        Standing::Idle => Some(Refusal::NoTransaction),
        Standing::UnderWay | Standing::Failed => None,
    }
}

fn request_refusal(standing: Standing) -> Option<Refusal>
    ensures { result ≡ request_refusal standing }
{
    match standing {
        Standing::Idle => Some(Refusal::NoTransaction),
        Standing::UnderWay => None,
        Standing::Failed => Some(Refusal::Doomed),
    }
}

/// The statement is in hand, before its first step. A begin, an explain and maintenance take their memory here, but for work, which doesn't
/// know its range yet. After a refusal nothing is changed.
pub(crate) fn take_up<D: Disk + Drop>(
    parts: &mut Parts<D>,
    slot: &mut Slot,
    statement: Statement,
) -> Result<(), NoMemory>
    requires statement { IsStatementFor parts.old.pages.layout.schema statement }
    requires slot { IsKeptSlot parts.old.pages.layout slot.old }
    ensures taken { OnOk result (IsSomeAnd (hand_of slot.new) (TakesHand parts.old parts.new statement)) }
    ensures slot { IsKeptSlot parts.old.pages.layout slot.new }
    ensures wants { OnErr result (may_want_memory statement ≡ true) }
    ensures same { OnErr result (parts.new ≡ parts.old) }
    ensures same_slot { OnErr result (slot.new ≡ slot.old) }
{
    match statement {
        Statement::Insert { table, values } => {
            hold_put(slot, table, values);
            Ok(())
        }
        other => take_other(parts, slot, other),
    }
}

/// A statement that is no insert is in hand.
#[inline(never)]
fn take_other<D: Disk + Drop>(
    parts: &mut Parts<D>,
    slot: &mut Slot,
    statement: Statement,
) -> Result<(), NoMemory>
    requires statement { IsStatementFor parts.old.pages.layout.schema statement }
    requires other { IsNoInsert statement }
    requires slot { IsKeptSlot parts.old.pages.layout slot.old }
    ensures taken { OnOk result (IsSomeAnd (hand_of slot.new) (TakesHand parts.old parts.new statement)) }
    ensures slot { IsKeptSlot parts.old.pages.layout slot.new }
    ensures wants { OnErr result (may_want_memory statement ≡ true) }
    ensures same { OnErr result (parts.new ≡ parts.old) }
    ensures same_slot { OnErr result (slot.new ≡ slot.old) }
{
    let hand = hand_for(parts, statement)?;
    hold_other(slot, hand);
    Ok(())
}

/// A statement in hand that is no insert.
fn hand_for<D: Disk + Drop>(parts: &mut Parts<D>, statement: Statement) -> Result<Hand, NoMemory>
    requires statement { IsStatementFor parts.old.pages.layout.schema statement }
    requires other { IsNoInsert statement }
    ensures taken { IfOk result (TakesHand parts.old parts.new statement) }
    ensures wants { OnErr result (may_want_memory statement ≡ true) }
    ensures same { OnErr result (parts.new ≡ parts.old) }
{
    match statement {
        Statement::Begin => begin_hand(parts),
        Statement::Commit => Ok(Hand::Commits),
        Statement::Rollback => Ok(Hand::RollsBack),
        Statement::Insert { .. } => unreachable!(),
        Statement::Select(query) => Ok(Hand::Selecting(query)),
        Statement::Delete(query) => Ok(Hand::Deleting(query)),
        Statement::Explain(query) => explain_hand(parts, query),
        Statement::Summarize { index, block } => summarise_hand(parts, index, block),
        Statement::Desummarize { index, block } => desummarise_hand(parts, index, block),
        Statement::Vacuum { table } => vacuum_hand(parts, table),
        Statement::Work => Ok(Hand::Working),
    }
}

fn begin_hand<D: Disk + Drop>(parts: &mut Parts<D>) -> Result<Hand, NoMemory>
    ensures taken { IfOk result (TakesHand parts.old parts.new Statement.Begin) }
    ensures same { OnErr result (parts.new ≡ parts.old) }
{
    let numbers = Vec::with_capacity(parts.alloc, MAX_SESSIONS)?;
    parts.journal.promise(ENTRIES_A_BEGIN)?;
    Ok(Hand::Begins(numbers))
}

fn explain_hand<D: Disk + Drop>(parts: &Parts<D>, query: Query) -> Result<Hand, NoMemory>
    requires { IsQueryFor parts.now.pages.layout.schema query }
    ensures { IfOk result (TakesHand parts.now parts.now (Statement.Explain query)) }
{
    let explain = Explain::new(parts.alloc, query, parts.pages.layout())?;
    Ok(Hand::Explains(explain))
}

fn summarise_hand<D: Disk + Drop>(
    parts: &Parts<D>,
    index: u8,
    block: Option<u32>,
) -> Result<Hand, NoMemory>
    requires { index < length parts.now.pages.layout.schema.indexes }
    ensures { IfOk result (TakesHand parts.now parts.now (Statement.Summarize index block)) }
{
    let wish = match block {
        Some(block) => Wish::Block(block),
        None => Wish::New,
    };
    let summarise = Summarise::new(parts.alloc, index, wish, parts.pages.layout())?;
    Ok(Hand::Summarises(summarise))
}

fn desummarise_hand<D: Disk + Drop>(
    parts: &Parts<D>,
    index: u8,
    block: u32,
) -> Result<Hand, NoMemory>
    requires { index < length parts.now.pages.layout.schema.indexes }
    ensures { IfOk result (TakesHand parts.now parts.now (Statement.Desummarize index block)) }
{
    let desummarise = Desummarise::new(index, block);
    Ok(Hand::Desummarises(desummarise))
}
