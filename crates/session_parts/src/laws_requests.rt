//! Laws of the journal's requests. None does anything.

ghost use Rattle.session_parts.specs.RequestLaws.{BeginIsLegal, EndIsLegal, LookIsLegal, MarkIsLegal, OneMoreIsLegal, OneMoreIsRun, OthersCopiesStay, PutIsLegal};

/// A journal is legal with one more request that is, and leads to where that request leads.
pub fn one_more_request()
    ensures legal { OneMoreIsLegal }
    ensures run { OneMoreIsRun }
{}

/// The requests of a transaction that hasn't failed are legal, and so are the end of one that is open and the begin of one where none is.
pub fn requests_are_legal()
    ensures put { PutIsLegal }
    ensures look { LookIsLegal }
    ensures mark { MarkIsLegal }
    ensures end { EndIsLegal }
    ensures begin { BeginIsLegal }
{}

/// A request of one session leaves the copies of the others.
pub fn others_copies_stay()
    ensures { OthersCopiesStay }
{}
