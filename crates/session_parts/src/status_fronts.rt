//! How a store's statuses and snapshots stand to its journal. By the statuses each transaction since the opening has committed exactly
//! where the journal has its commit, and each open transaction's snapshot has exactly the transactions that had ended where it began.
//! Here stands what each step of a store keeps of that, from its start on, and which rows an open transaction saw before its own
//! deletes. Each law is a function that does no work: its contract is the law, and whoever calls it may use it. It stands on
//! script_semantics and transactions.

ghost use Rattle.session_parts.specs.RowsFollow.{DropFollows, MarkFollows, PutFollows, SameHeapsFollow};
ghost use Rattle.session_parts.specs.SeenBefore.{SawRowsAtBegin, SawRowsAtEnd, SawRowsStay};
ghost use Rattle.session_parts.specs.FrontLaws.{AnyPlaceStands, AnyStatusesStand, BeginStands, EndStands, OwnStepsKeepOpens, StartStands, StepWithinStands};

/// Whichever list of statuses the pages have, the same is known of it; and it is known by the opening and the journal alone.
pub fn any_statuses_stand()
    ensures statuses { AnyStatusesStand }
    ensures places { AnyPlaceStands }
{}

/// How rows go on: where heaps stay, a row is put, a row is marked by an open transaction, or rows are dropped.
pub fn rows_follow()
    ensures alike { SameHeapsFollow }
    ensures put { PutFollows }
    ensures marked { MarkFollows }
    ensures dropped { DropFollows }
{}

/// A step within a transaction keeps what is known, where its requests are puts, looks and marks. Such a step leaves open transactions
/// their numbers and snapshots, where its session's one goes on, has put one row more, or has failed.
pub fn a_step_within_stands()
    ensures kept { StepWithinStands }
    ensures opens { OwnStepsKeepOpens }
{}

/// A begin keeps it: the new snapshot has exactly the transactions that had ended there.
pub fn a_begin_stands()
    ensures { BeginStands }
{}

/// The end of a transaction keeps it, by a commit or a rollback: its status says whether the journal has its commit.
pub fn an_end_stands()
    ensures { EndStands }
{}

/// A start begins with it.
pub fn a_start_stands()
    ensures { StartStands }
{}

/// What a transaction saw before its own deletes it saw still, where rows are marked, where a transaction begins and where another
/// session's ends.
pub fn seen_rows_stay()
    ensures marked { SawRowsStay }
    ensures begun { SawRowsAtBegin }
    ensures ended { SawRowsAtEnd }
{}
