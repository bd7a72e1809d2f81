//! What comes of the last step of a scan.

ghost use Rattle.std.specs.Prelude.{◌≡◌, ◌+◌, ◌<◌, ◌≤◌, IfOk, IsSome, Ok, OnErr, length};
ghost use Rattle.block_model.specs.declared.reply.Point.{Point as AnyPoint};
ghost use Rattle.snapshot_core.specs.StoredVersions.{transaction_of};
ghost use Rattle.store_layout.specs.declared.limits.TheConstants.{MAX_ENTRIES};
ghost use Rattle.session_parts.specs.declared.hand.Stepped.TheVariants as stepped;
ghost use Rattle.session_parts.specs.StepIs.{stepped_in};
ghost use Rattle.session_scans.specs.FoundLists.{ListsHits, ListsRows};
ghost use Rattle.session_scans.specs.Finishes.{EntersLook, Finishes, Releases};
ghost use Rattle.session_scans.specs.Looks.{IsInScan, OfScan, first_hand_of};

use crate::lists::{copy_of, hits_of, rows_of, sort_by_id};
use crate::looking::{Looking, first_hand, put, taken};
use crate::refusing::refuse_look;
use block_model::{NoMemory, Point, Query, Reply, Request, Row, Rows, Spot, Tag};
use disk_trait::Disk;
use session_parts::{Hand, Hit, Marking, Parts, Step, StoreFault, spent};
use std::alloc::Global;

/// The scan has made its last step, at this point: a select tells the rows that it found, and a delete goes on to mark them. Only where the disk
/// doesn't tell its contents can the last step come at a full journal: it was looked for ahead. The statement begins anew there.
pub(crate) fn finish<D: Disk + Drop>(
    parts: &mut Parts<D>,
    session: u32,
    hand: &mut Hand,
    point: Point,
    looking: Looking,
) -> Result<Step, StoreFault>
    requires promised { 2 ≤ parts.old.journal.promised }
    requires open { IsSome (transaction_of parts.old.transactions.opens session) }
    requires in_scan { IsInScan looking hand.old }
    ensures { OfScan looking hand.old (λ scan. Finishes parts.old session looking scan.judging.query scan.found point (stepped_in hand.new result) parts.new) }
{
    let (query, found) = taken(hand).into_parts();
    if !parts.journal.fits(1) {
        return Err(begin_anew(parts, hand, query, looking));
    }
    match looking {
        Looking::Select => Ok(Step::Done(tell_rows(parts, session, query, found))),
        Looking::Delete => Ok(mark_rows(parts, session, hand, query, found, point)),
    }
}

/// The statement is before its first step again, and what the journal promised to its scan isn't needed.
fn begin_anew<D: Disk + Drop>(
    parts: &mut Parts<D>,
    hand: &mut Hand,
    query: Query,
    looking: Looking,
) -> StoreFault
    requires taken { hand.old ≡ Hand.Working }
    requires promised { 0 < parts.old.journal.promised }
    ensures answer { result ≡ StoreFault.Spent (length parts.old.journal.entries) }
    ensures hand { hand.new ≡ first_hand_of looking query }
    ensures released { Releases parts.old parts.new }
{
    parts.journal.release(1);
    put(hand, first_hand(looking, query));
    spent(&parts.journal)
}

/// The look is entered, and the rows are told in order of their ids; unless memory is short for that.
fn tell_rows<D: Disk + Drop>(
    parts: &mut Parts<D>,
    session: u32,
    query: Query,
    found: Vec<(Row, Spot)>,
) -> Reply
    requires promised { 2 ≤ parts.old.journal.promised }
    requires open { IsSome (transaction_of parts.old.transactions.opens session) }
    requires room { length parts.old.journal.entries + 1 ≤ MAX_ENTRIES }
    ensures { (point : AnyPoint) → Finishes parts.old session Looking.Select query found.items point (stepped.Done result) parts.new }
{
    match rows_in_order(parts.alloc, found) {
        Ok(rows) => {
            enter_look(parts, session, query);
            Reply::Found(rows)
        }
        Err(_) => {
            parts.journal.release(1);
            refuse_look(parts, session, query)
        }
    }
}

/// The delete goes on to its marks, in order of the ids; unless memory is short for that, or nothing was found.
fn mark_rows<D: Disk + Drop>(
    parts: &mut Parts<D>,
    session: u32,
    hand: &mut Hand,
    query: Query,
    found: Vec<(Row, Spot)>,
    point: Point,
) -> Step
    requires taken { hand.old ≡ Hand.Working }
    requires promised { 2 ≤ parts.old.journal.promised }
    requires open { IsSome (transaction_of parts.old.transactions.opens session) }
    requires room { length parts.old.journal.entries + 1 ≤ MAX_ENTRIES }
    ensures { Finishes parts.old session Looking.Delete query found.items point (stepped_in hand.new (Ok result)) parts.new }
{
    if found.is_empty() {
        enter_look(parts, session, query);
        return Step::Done(Reply::Deleted { count: 0 });
    }
    match hits_for(parts, &query, found) {
        Ok((look, hits)) => {
            let marking = Marking {
                query,
                look: Some(look),
                hits,
                next: 0,
            };
            put(hand, Hand::Marks(marking));
            Step::Moved(point)
        }
        Err(_) => {
            parts.journal.release(1);
            Step::Done(refuse_look(parts, session, query))
        }
    }
}

/// The look is entered. Takes no memory.
fn enter_look<D: Disk + Drop>(parts: &mut Parts<D>, session: u32, query: Query)
    requires promised { 0 < parts.old.journal.promised }
    ensures { EntersLook parts.old parts.new session query }
{
    let table = query.table;
    parts
        .journal
        .enter(session, table, Request::Look(query), Tag::Ok);
}

/// The rows that were found, in order of their ids.
fn rows_in_order(alloc: Global, mut found: Vec<(Row, Spot)>) -> Result<Rows, NoMemory>
    ensures { IfOk result (ListsRows found.items) }
{
    sort_by_id(&mut found);
    rows_of(alloc, found.as_slice())
}

/// A copy of the query, and what was found, in order of the ids, with an entry of the journal promised for each. After a refusal the parts are
/// as they were.
fn hits_for<D: Disk + Drop>(
    parts: &mut Parts<D>,
    query: &Query,
    mut found: Vec<(Row, Spot)>,
) -> Result<(Query, Vec<Hit>), NoMemory>
    ensures look { IfOk result (λ made. made.0 ≡ query.now) }
    ensures hits { IfOk result (λ made. ListsHits found.items made.1.items) }
    ensures entries { parts.new.journal.entries ≡ parts.old.journal.entries }
    ensures promised { IfOk result (λ made. parts.new.journal.promised ≡ parts.old.journal.promised + length made.1.items) }
    ensures same { OnErr result (parts.new.journal.promised ≡ parts.old.journal.promised) }
    ensures rest { parts.new ≡ record parts.old { journal = parts.new.journal } }
{
    sort_by_id(&mut found);
    let hits = hits_of(parts.alloc, found.as_slice())?;
    let look = copy_of(parts.alloc, query)?;
    parts.journal.promise(hits.len())?;
    Ok((look, hits))
}
