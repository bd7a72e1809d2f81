//! Laws of transcripts over the definition of steps: how the journal of the steps is ahead of the transcript (specs/Ahead), and that each step keeps it so or tells the
//! transcript its next entry; so what a schedule of sessions has told is a right transcript (specs/Schedule). It stands on transcripts, script_semantics, script_laws and
//! model_laws. Each function does nothing.
#![tactic(auto)]

ghost use Rattle.transcript_laws.specs.Laws.{BeginsAreTold, CommitsAreTold, ConflictsAreTold, DeletesAreTold, FailedDeletesAreTold, FailuresStayAhead, InsertsAreTold, LooksStayAhead, MarkedRowsAreFree, MarksStayAhead, OthersStayAhead, PutsStayAhead, RefusedInsertsAreTold, RollbacksAreTold, SelectsAreTold, StatementsAreTaken};
ghost use Rattle.transcript_laws.specs.EntryLaws.{AnswersAreEntries, BeginsAhead};
ghost use Rattle.transcript_laws.specs.PlaceLaws.{PlacesAreTold, RefusedIsTold, TakenIsAhead};
ghost use Rattle.transcript_laws.specs.ScheduleLaws.{AnswersAreInPlace, OnlyInsertsDrop, SchedulesAreReached, SchedulesAreTranscripts};
ghost use Rattle.transcript_laws.specs.StepLaws.{StepsAreTold};

use coverage::table_stays_covered;
use script_semantics::a_step_enters;

/// The rows that a delete in hand has marked must not conflict where its answer stands; and a row that it can't mark must, or may. Does nothing.
pub fn conflicts_are_told()
    ensures free { MarkedRowsAreFree }
    ensures told { ConflictsAreTold }
{}

/// An insert's put that is entered before its answer keeps the journal ahead of the transcript; an insert, a delete and a delete that meets a conflict are told as whole
/// statements at the place of their answer, and the journal is ahead of the transcript with them. Does nothing.
pub fn statements_are_told()
    ensures puts { PutsStayAhead }
    ensures inserts { InsertsAreTold }
    ensures deletes { DeletesAreTold }
    ensures failed { FailedDeletesAreTold }
{}

/// So do a look and a mark that doesn't conflict; a statement is taken or refused alike; and begins, ends, selects and refused inserts are told. Does nothing.
pub fn other_events_are_told()
    ensures taken { StatementsAreTaken }
    ensures looks { LooksStayAhead }
    ensures marks { MarksStayAhead }
    ensures begins { BeginsAreTold }
    ensures commits { CommitsAreTold }
    ensures rollbacks { RollbacksAreTold }
    ensures selects { SelectsAreTold }
    ensures refused { RefusedInsertsAreTold }
    ensures failures { FailuresStayAhead }
    ensures others { OthersStayAhead }
{}

/// A step that is told without a table keeps the journal ahead of the transcript where it answers nothing, and with its answer tells the transcript's next entry.
/// Does nothing.
pub fn steps_are_told()
    ensures { StepsAreTold }
{}

/// So does each step at a place where the answers are in place. Does nothing.
pub fn a_step_is_told()
    ensures { PlacesAreTold }
{
    a_step_enters();
}

/// A statement that is taken leaves the transcript, and one that is refused is told so. Does nothing.
pub fn a_submission_is_told()
    ensures taken { TakenIsAhead }
    ensures refused { RefusedIsTold }
{}

/// With nothing in hand each database is ahead of itself; and the answer to a session's next line makes one entry more of a right transcript. Does nothing.
pub fn an_answer_is_an_entry()
    ensures begins { BeginsAhead }
    ensures entry { AnswersAreEntries }
{}

/// Wherever a script comes, the answers of each statement in hand fit what it is at in its table; and a statement that ends has dropped no request, unless it is an
/// insert. Does nothing.
pub fn answers_are_in_place()
    ensures place { AnswersAreInPlace }
    ensures drops { OnlyInsertsDrop }
{
    table_stays_covered();
}

/// In whatever order sessions submit their lines and make their steps, beside each other: what was answered so far, entry by entry, is a right transcript, and its table
/// is that of the requests so far. All laws of places to which a script comes hold there too. Does nothing.
pub fn schedules_are_transcripts()
    ensures reached { SchedulesAreReached }
    ensures told { SchedulesAreTranscripts }
{
    a_step_is_told();
    a_submission_is_told();
    an_answer_is_an_entry();
    answers_are_in_place();
}
