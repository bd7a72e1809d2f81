//! Laws: a statement that its session alone steps comes to its reply, or to a step that waits, before so many steps as a number of 64 bits counts
//! (specs/); and the tables that pages show are as small as that asks for. It stands on script_semantics, on coverage's laws of a table's steps, and
//! on what index_steps shows of pages; the store of sessions and the script's sessions stand on it. Each function does nothing.

ghost use Rattle.std.specs.Prelude.{◌≡◌, ◌-◌, ◌^◌, ◌<◌, ℕ, suc, Some};
ghost use Rattle.block_model.specs.declared.reply.Point.{Point};
ghost use Rattle.script_semantics.specs.Place.{Hand, Place};
ghost use Rattle.script_semantics.specs.StatementSteps.{Moved, Steps};
ghost use Rattle.script_semantics.specs.Stops.{MovedTo};
ghost use Rattle.script_semantics.specs.Moves.{IsBoundedAt, MovedIn};
ghost use Rattle.script_semantics.specs.ShownBounds.{ShownTablesAreBounded};

/// Steps behind each of which a statement goes on, by their number: none, and one more behind others.
pub fn moves_are_counted()
    ensures moved { (p q : Place) (n steps : ℕ) → MovedIn n steps p q → MovedTo n p q }
    ensures none { (p : Place) (n : ℕ) → MovedIn n 0 p p }
    ensures further { (p q r : Place) (n steps : ℕ) (point : Point) → MovedIn n steps p q → Steps q n (Moved point) r → MovedIn n (suc steps) p r }
{}

/// A statement that its session alone steps goes on behind fewer than 2^64 - 1 steps, where its table is kept and no larger than a layout may make
/// it: it comes to its reply, or to a step that waits, before. So do a vacuum, over all of its indexes, and work.
pub fn a_finished_statement_ends()
    ensures { (p q : Place) (n steps : ℕ) (hand : Hand) → p.hands n ≡ Some hand → IsBoundedAt p n hand.statement → MovedIn n steps p q → steps < 2 ^ 64 - 1 }
{}

/// A table of a layout within its limits that pages show is no larger than a layout may make it.
pub fn shown_tables_are_bounded()
    ensures { ShownTablesAreBounded }
{}
