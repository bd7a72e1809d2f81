//! Laws of what requests and changes of transactions lead to. None does anything.

ghost use Rattle.session_parts.specs.LeadLaws.{BeginSeesAlike, EndSeesAlike, FailureCountsNoMore, FailureStaysWithin, FewerCountsFew, LookStaysWithin, MarkLeavesSlots, MarkStaysWithin, MoreCountsFew, NextHasNoRows, NoRequestLeads, NothingLeavesSlots, PutLeavesSlots, PutStaysWithin, RequestLeads, SameCountsFew, SameSeesAlike, ScanSawRows, TwoRequestsLead};

/// A put, a look or a mark of a session leads to the database of the journal with it, stands to its fronts, and leaves the other sessions' copies; and
/// so it is without a request, as long as rows and statuses stay.
pub fn a_request_leads()
    ensures one { RequestLeads }
    ensures two { TwoRequestsLead }
    ensures none { NoRequestLeads }
{}

/// A put, a mark, a look and a failure of a session's transaction begin and end none.
pub fn transactions_go_on()
    ensures put { PutStaysWithin }
    ensures mark { MarkStaysWithin }
    ensures look { LookStaysWithin }
    ensures failure { FailureStaysWithin }
{}

/// What a session's transaction puts or marks, and its begin and its end, leave what the transactions of the others see.
pub fn others_see_on()
    ensures put { PutLeavesSlots }
    ensures mark { MarkLeavesSlots }
    ensures nothing { NothingLeavesSlots }
    ensures begin { BeginSeesAlike }
    ensures end { EndSeesAlike }
    ensures same { SameSeesAlike }
{}

/// What a scan sees its transaction saw before its own deletes.
pub fn a_scan_saw_its_rows()
    ensures { ScanSawRows }
{}

/// Rows come to count only where there are none: with a begin, a commit, a rollback and a failure.
pub fn few_rows_come_to_count()
    ensures same { SameCountsFew }
    ensures fewer { FewerCountsFew }
    ensures more { MoreCountsFew }
    ensures next { NextHasNoRows }
    ensures failure { FailureCountsNoMore }
{}
