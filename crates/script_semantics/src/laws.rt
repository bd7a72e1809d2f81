//! Laws of the texts of lines.

ghost use Rattle.std.specs.Prelude.{◌≡◌, ◌≢◌, ◌⊎◌, ◌↔◌, ◌≤◌, ◌<◌, ℕ, true, List, [], ◌∷◌, length, slice_get, Option, None, Some, Ok, Err};
ghost use Rattle.std.specs.FinMap as map;
ghost use Rattle.block_model.specs.declared.reply.Point.{Point};
ghost use Rattle.block_model.specs.declared.reply.Refusal.{Refusal};
ghost use Rattle.block_model.specs.declared.reply.Refusal.TheVariants as refusals;
ghost use Rattle.block_model.specs.declared.reply.Reply.{Reply};
ghost use Rattle.block_model.specs.declared.reply.Reply.TheVariants as replies;
ghost use Rattle.block_model.specs.declared.reply.What.TheVariants as whats;
ghost use Rattle.block_model.specs.declared.row.Query.{Query};
ghost use Rattle.block_model.specs.declared.row.Row.{Row};
ghost use Rattle.block_model.specs.declared.value.Value.{Value};
ghost use Rattle.block_model.specs.DatabaseState.{OpenTransaction};
ghost use Rattle.block_model.specs.RequestEffect.{Answer, rows_found};
ghost use Rattle.index_steps.specs.IndexTuples.{index_at};
ghost use Rattle.script_semantics.specs.Beginnings.{IsAtRest};
ghost use Rattle.script_semantics.specs.Laws.{AnEmptyTableIsSummarized, AnInsertIsAnswered, CountsFinals, EntersItsOwn, EntersItsPut, HasOneAnswer, IsHeldFrom, IsNotTaken, IsToldAlone, IsToldItsHolder, PlainIsAsOneStep, PlainIsStartAndFinish, PlainIsStartAndSteps, RequestsAreAsOneStep, StepsEnterInPlace, lock_text};
ghost use Rattle.script_semantics.specs.LineTexts.{Answers, Does, Finishes, Submits, block_refusal, fault_text, refused_text, with_statement};
ghost use Rattle.script_semantics.specs.Names.{name_of, table_name};
ghost use Rattle.script_semantics.specs.Place.{Hand, Place, database_at, new_hand};
ghost use Rattle.script_semantics.specs.RequestSteps.{StepsEnter};
ghost use Rattle.script_semantics.specs.StatementSteps.{Ended, Moved, Outcome, StepsTo, Waits};
ghost use Rattle.query_words.specs.declared.line.Line.TheVariants as lines;
ghost use Rattle.query_words.specs.declared.line.LineFault.{LineFault};
ghost use Rattle.query_words.specs.declared.line.Order.{Order};
ghost use Rattle.query_words.specs.declared.line.Order.TheVariants as orders;
ghost use Rattle.reply_texts.specs.StepTexts.{started_text};
ghost use Rattle.store_layout.specs.declared.limits.TheConstants.{MAX_ENTRIES, MAX_SESSIONS};
ghost use Rattle.store_layout.specs.declared.statement.Statement.{Statement};
ghost use Rattle.store_layout.specs.declared.statement.Statement.TheVariants as statements;
ghost use Rattle.store_layout.specs.SessionNumbers.{is_past_sessions};
ghost use Rattle.store_layout.specs.StatementRequests.{refusal_at};
ghost use Rattle.coverage.specs.Accounts.{Asked};
ghost use Rattle.coverage.specs.Table.{Resting};
ghost use Rattle.coverage.specs.TableCovered.{IsTableKept};

use coverage::{accounts_are_exact, blocked_statements_wait, refusals_have_their_cause};

/// A plain line has the text of a start and a finish, or of a start and as many steps, and leads to the same place; and a finish of a
/// statement that was taken is its plain line. Does nothing.
pub fn a_plain_line_is_a_start_and_steps()
    ensures steps { PlainIsStartAndSteps }
    ensures finish { PlainIsStartAndFinish }
    ensures back { (p q r : Place) (n : ℕ) (name text : List ℕ) (statement : Statement) → Submits p n statement None q → Does q n name orders.Finish text r
        → Does p n name (orders.Whole statement) text r }
{}

/// The checks of a line come in one order: it is read; its session is one of those that there may be; a statement in hand, or none where a step
/// is asked for; the block; the transaction. Each of these refusals changes nothing; and a statement that passes them is started, or memory is
/// short. Does nothing.
pub fn refusals_come_in_order()
    ensures unread { (p q : Place) (fault : LineFault) (text : List ℕ) → Answers p (Err fault) text q → (text ≡ fault_text fault) × (q ≡ p) }
    ensures sessions { (p q : Place) (name text : List ℕ) (order : Order) → is_past_sessions p.names name ≡ true → Answers p (Ok (lines.Say name order)) text q
        → (text ≡ refused_text name (refusals.Limit MAX_SESSIONS)) × (q ≡ p) }
    ensures in_hand { (p : Place) (n : ℕ) (name : List ℕ) (hand : Hand) (statement : Statement) → p.hands n ≡ Some hand
        → IsNotTaken p n name statement refusals.InHand }
    ensures nothing_started { (p : Place) (n : ℕ) (name : List ℕ) → p.hands n ≡ None
        → IsToldAlone p n name orders.Step refusals.NothingStarted × IsToldAlone p n name orders.Finish refusals.NothingStarted }
    ensures blocks { (p : Place) (n : ℕ) (name : List ℕ) (statement : Statement) (refusal : Refusal) → p.hands n ≡ None
        → block_refusal p.layout.sizes.heap_blocks statement ≡ Some refusal → IsNotTaken p n name statement refusal }
    ensures transactions { (p : Place) (n : ℕ) (name : List ℕ) (statement : Statement) (refusal : Refusal) → p.hands n ≡ None
        → block_refusal p.layout.sizes.heap_blocks statement ≡ None → refusal_at (database_at p) n statement ≡ Some refusal
        → IsNotTaken p n name statement refusal }
    ensures until_reply { (p q : Place) (n : ℕ) (name : List ℕ) (statement other : Statement) → Submits p n statement None q
        → IsNotTaken q n name other refusals.InHand }
    ensures started { (p q : Place) (n : ℕ) (name text : List ℕ) (statement : Statement) → p.hands n ≡ None
        → block_refusal p.layout.sizes.heap_blocks statement ≡ None → refusal_at (database_at p) n statement ≡ None
        → Does p n name (orders.Start statement) text q
        → ((text ≡ started_text name) × (q ≡ with_statement p n statement)) ⊎ ((text ≡ refused_text name refusals.Memory) × (q ≡ p)) }
{}

/// A step that waits changes nothing, and is told with what it waits for and the other session that has it; after its reply a statement isn't
/// in hand. Does nothing.
pub fn a_blocked_step_waits()
    ensures changes_nothing { (p q : Place) (n : ℕ) (hand : Hand) (refusal : Refusal) → StepsTo p n hand (Waits refusal) q → q ≡ p }
    ensures holder { (p q : Place) (n : ℕ) (hand : Hand) (refusal : Refusal) → StepsTo p n hand (Waits refusal) q → IsToldItsHolder p n refusal }
    ensures ended { (p q : Place) (n : ℕ) (hand : Hand) (reply : Reply) → StepsTo p n hand (Ended reply) q → q.hands n ≡ None }
{
    blocked_statements_wait();
}

/// The first step of a maintenance statement of a table where another session holds the summarise lock is blocked, and tells that session; and
/// so is its plain line, behind which it is in hand. Does nothing.
pub fn maintenance_waits_for_the_summarise_lock()
    ensures step { (p : Place) (n m table : ℕ) (name : List ℕ) (statement : Statement) → p.hands n ≡ Some (new_hand statement)
        → IsHeldFrom p n m table statement → Does p n name orders.Step (lock_text p name table m) p }
    ensures plain { (p q : Place) (n m table : ℕ) (name : List ℕ) (statement : Statement) → Submits p n statement None q
        → IsHeldFrom q n m table statement → Does p n name (orders.Whole statement) (lock_text q name table m) q }
{}

/// Work that has made no step answers that there is none exactly where no summary is asked for; and where it goes on, it has taken the first one
/// out of the queue. Does nothing.
pub fn work_answers_the_queue()
    ensures none { (p q : Place) (n : ℕ) (outcome : Outcome) → IsAtRest p n → StepsTo p n (new_hand statements.Work) outcome q
        → (outcome ≡ Ended replies.Idle) ↔ (p.queue ≡ []) }
    ensures first { (p q : Place) (n : ℕ) (point : Point) → IsAtRest p n
        → ((asked : Asked) → slice_get p.queue 0 ≡ Some asked → asked.table < length p.layout.schema.tables)
        → StepsTo p n (new_hand statements.Work) (Moved point) q → (asked : Asked) × (p.queue ≡ asked ∷ q.queue) }
{}

/// A summarize that begins at a place where its table is kept, and beside which no other session steps, answers the number of the ranges to
/// which it gave a final tuple. Does nothing.
pub fn a_summarize_counts_its_ranges()
    ensures { (p q : Place) (n index count : ℕ) (block : Option ℕ) → p.hands n ≡ Some (new_hand (statements.Summarize index block))
        → (p.tables (index_at p.layout index).table).task n ≡ Resting → IsTableKept (p.tables (index_at p.layout index).table)
        → Finishes n p (Ended (replies.Summarized count)) q → CountsFinals n (index_at p.layout index).table p q count }
{
    accounts_are_exact();
}

/// The requests of a statement that makes them one by one, with none of another session between, are those that it makes at once. An
/// insert's put is entered with its row, each mark with its step, behind the look before the first one, and no other step that goes on enters
/// any. What a step enters is of its session, and what the other sessions have in hand stays. A plain line of a transaction has the requests
/// and the reply of its statement in one step on its session's copy, or memory, room or a lock is wanting. Does nothing.
pub fn requests_are_entered_in_place()
    ensures at_once { RequestsAreAsOneStep }
    ensures in_place { StepsEnterInPlace }
    ensures own { (p q : Place) (n : ℕ) (hand : Hand) (outcome : Outcome) → StepsTo p n hand outcome q → EntersItsOwn p n q }
    ensures plain { PlainIsAsOneStep }
{}

/// Each step is told by what it enters into the journal and leaves in hand, without a table, where the answers of the statement in hand fit what it is at in
/// its table. Does nothing.
pub fn a_step_enters()
    ensures { StepsEnter }
{
    refusals_have_their_cause();
}

/// A refused insert lacks memory or room, and enters its put with that tag: alone, or behind the put of its row. A select is answered
/// exactly the rows of its session's copy that match, whatever the indexes and the other sessions did beside it. Does nothing.
pub fn answers_are_of_the_copy()
    ensures insert { (p q : Place) (n table : ℕ) (values : List Value) (answers : List Answer) (told : Refusal) → HasOneAnswer answers
        → StepsTo p n (record { statement = statements.Insert table values; answers = answers }) (Ended (replies.Refused told)) q
        → EntersItsPut p n table values told q }
    ensures select { (p q : Place) (n : ℕ) (query : Query) (rows : List Row) (x : OpenTransaction) → map.get (database_at p).sessions n ≡ Some x
        → StepsTo p n (new_hand (statements.Select query)) (Ended (replies.Found rows)) q → rows ≡ rows_found x query }
{}

/// The definition isn't empty: an insert into a table without indexes is answered its row, and a summarize of a table without blocks is answered
/// that it made nothing. Does nothing.
pub fn lines_are_answered()
    ensures insert { AnInsertIsAnswered }
    ensures summarize { AnEmptyTableIsSummarized }
{}
