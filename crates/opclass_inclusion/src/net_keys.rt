//! Conditions on addresses, judged by a summary of them.

ghost use Rattle.std.specs.Prelude.{◌≡◌};
ghost use Rattle.block_model.specs.Matches.{network_matches};
ghost use Rattle.opclass_inclusion.specs.NetConsistent.{condition_holds, consistent, key_holds, network_holds};

use crate::net_summary::NetSummary;
use block_model::{Cond, Net, Op, Value};

impl NetSummary {
    /// Whether each condition may be met by an address that the summary includes.
    pub(crate) fn hold(&self, conds: &[Cond]) -> bool
        ensures { result ≡ consistent self.now conds.now }
    {
        conds.iter().all(|cond| self.holds(cond.op, &cond.key))
    }

    fn holds(&self, op: Op, key: &Value) -> bool
        ensures { result ≡ condition_holds self.now op key.now }
    {
        match self {
            NetSummary::NothingYet => false,
            NetSummary::Unmergeable => true,
            NetSummary::Hull(network) => key_holds(network, op, key),
        }
    }
}

fn key_holds(network: &Net, op: Op, key: &Value) -> bool
    ensures { result ≡ key_holds network.now op key.now }
{
    match key {
        Value::Net(k) => network_holds(network, op, k),
        Value::Null | Value::Int(_) | Value::Span(_) => false,
    }
}

/// Whether an address in the network may meet a condition with this key.
fn network_holds(network: &Net, op: Op, k: &Net) -> bool
    ensures { result ≡ network_holds network.now op k.now }
{
    match op {
        Op::Eq | Op::After | Op::ContainsEq => k.is_within(network),
        Op::Overlaps | Op::Before | Op::WithinEq => overlaps(network, k),
        _ => false,
    }
}

fn overlaps(first: &Net, second: &Net) -> bool
    ensures { result ≡ network_matches first.now Op.Overlaps second.now }
{
    first.is_within(second) || second.is_within(first)
}
