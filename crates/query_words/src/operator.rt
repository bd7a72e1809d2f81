//! The operators: how they are written, and the kinds that take them.

ghost use Rattle.std.specs.Prelude.{◌≡◌};
ghost use Rattle.query_words.specs.Operators.{op_text, op_of};
ghost use Rattle.store_layout.specs.OperatorKinds.{takes_operator};

use crate::written::{Written, first_written};
use block_model::{Kind, Op};

const COMPARISONS: [Op; 15] = [
    Op::Lt,
    Op::Le,
    Op::Eq,
    Op::Ge,
    Op::Gt,
    Op::Overlaps,
    Op::Contains,
    Op::Within,
    Op::Before,
    Op::After,
    Op::WithinEq,
    Op::ContainsEq,
    Op::NotAfter,
    Op::NotBefore,
    Op::Adjacent,
];

/// How it is written.
pub fn op_text(op: Op) -> &'static [u8]
    ensures { result.now ≡ op_text op }
{
    match op {
        Op::Lt => b"<",
        Op::Le => b"<=",
        Op::Eq => b"=",
        Op::Ge => b">=",
        Op::Gt => b">",
        Op::Overlaps => b"&&",
        Op::Contains => b"@>",
        Op::Within => b"<@",
        Op::Before => b"<<",
        Op::After => b">>",
        Op::WithinEq => b"<<=",
        Op::ContainsEq => b">>=",
        Op::NotAfter => b"&<",
        Op::NotBefore => b"&>",
        Op::Adjacent => b"-|-",
        Op::IsNull => b"is null",
        Op::NotNull => b"is not null",
    }
}

impl Written for Op {
    ghost use Rattle.query_words.specs.Operators.{op_text};

    ghost text = { op_text };

    fn text(self) -> &'static [u8] {
        op_text(self)
    }
}

/// The operator that is written so in one word, of whatever kind.
pub fn read_op(word: &[u8]) -> Option<Op>
    ensures { result ≡ op_of word.now }
{
    first_written(&COMPARISONS, word)
}

/// Whether a column of the kind takes the operator.
pub fn takes_operator(kind: Kind, op: Op) -> bool
    ensures { result ≡ takes_operator kind op }
{
    match op {
        Op::IsNull | Op::NotNull | Op::Eq => true,
        Op::Lt | Op::Le | Op::Ge | Op::Gt => kind == Kind::Int,
        Op::Overlaps | Op::Before | Op::After => kind != Kind::Int,
        Op::Contains | Op::Within | Op::NotAfter | Op::NotBefore | Op::Adjacent => {
            kind == Kind::Span
        }
        Op::WithinEq | Op::ContainsEq => kind == Kind::Net,
    }
}
