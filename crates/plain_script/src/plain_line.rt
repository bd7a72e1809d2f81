//! What a line says where `start`, `step` and `finish` are no words.

ghost use Rattle.std.specs.Prelude.{◌≡◌, true, IfOk};
ghost use Rattle.query_words.specs.LineFits.{is_line_in, is_order_in};
ghost use Rattle.query_words.specs.Lines.{ReadsAs};
ghost use Rattle.query_words.specs.declared.line.Order.TheVariants as orders;
ghost use Rattle.plain_script.specs.PlainLines.{IsPlainLineFor, plain_line_of, plain_of, plain_verbs};

use block_model::Name;
use query_words::{Line, LineFault, Order, Verb, read_line_in};
use std::alloc::Global;
use store_layout::{Layout, Statement};

/// The language of plain lines: all verbs but `start`, `step` and `finish`.
pub const PLAIN: [Verb; 11] = [
    Verb::Begin,
    Verb::Commit,
    Verb::Rollback,
    Verb::Insert,
    Verb::Select,
    Verb::Delete,
    Verb::Explain,
    Verb::Summarize,
    Verb::Desummarize,
    Verb::Vacuum,
    Verb::Work,
];

/// A plain line: a session's statement as a whole.
#[derive(Debug, Drop)]
pub enum PlainLine {
    Nothing,
    Say { session: Name, statement: Statement },
}

/// Reads a line: what it says, or the first fault, as `read_line` judges it. Takes memory for conditions alone.
pub fn read_plain_line(alloc: Global, line: &[u8], layout: &Layout) -> Result<PlainLine, LineFault>
    ensures reads { ReadsAs result (plain_line_of layout.now.schema line.now) }
    ensures fits { IfOk result (IsPlainLineFor layout.now.schema) }
{
    match read_line_in(alloc, &PLAIN, line, layout) {
        Ok(read) => Ok(plain(read)),
        Err(fault) => Err(fault),
    }
}

/// The line as a plain one.
fn plain(read: Line) -> PlainLine
    requires { is_line_in plain_verbs read ≡ true }
    ensures { result ≡ plain_of read }
{
    match read {
        Line::Nothing => PlainLine::Nothing,
        Line::Say { session, order } => PlainLine::Say {
            session,
            statement: whole(order),
        },
    }
}

/// The statement of an order, which is a whole one.
fn whole(order: Order) -> Statement
    requires { is_order_in plain_verbs order ≡ true }
    ensures { order ≡ orders.Whole result }
{
    match order {
        Order::Whole(statement) => statement,
        Order::Start(_) | Order::Step | Order::Finish => unreachable!(),
    }
}
