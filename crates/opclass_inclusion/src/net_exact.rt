//! The exact summary of a list of addresses.

ghost use Rattle.std.specs.Prelude.{◌≡◌, ◌++◌, All, List};
ghost use Rattle.block_model.specs.declared.value.Value.{Value};
ghost use Rattle.opclass_inclusion.specs.NetExact.{ExactSummary, IsAddress, summary_of};
ghost use Rattle.opclass_api.specs.SameValues.{HaveSameValues};
ghost use Rattle.opclass_inclusion.specs.NetHulls.{IsSummary, united};
ghost use Rattle.opclass_inclusion.specs.NetIncludes.{Includes, IsNet};

use crate::net_class::NetHull;
use crate::net_summary::NetSummary;
use block_model::Value;
use opclass_api::add_all;

/// The summary of addresses by the calls of the class: the smallest network that each is in, or that two are of different
/// families; no other summary is so. The same addresses in any other order give the same. Takes no memory.
pub fn net_exact_summary(values: &[Value]) -> NetSummary
    requires { All IsNet values.now }
    ensures of_class { IsSummary result }
    ensures added_in_order { result ≡ summary_of values.now }
    ensures includes_each { All (Includes result) values.now }
    ensures exact { ExactSummary values.now result }
    ensures no_other { (t : NetSummary) → ExactSummary values.now t → t ≡ result }
    ensures any_order { (others : List Value) → HaveSameValues values.now others → summary_of others ≡ result }
{
    known(values);
    let mut summary = NetSummary::new();
    add_all(&NetHull::new(), &mut summary, values);
    summary
}

/// Every address is one of its family. Does nothing.
fn known(values: &[Value])
    requires { All IsNet values.now }
    ensures { All IsAddress values.now }
{
    'values: for value in values {
        address_known(value);
    }
}

fn address_known(value: &Value)
    requires { IsNet value.now }
    ensures { IsAddress value.now }
{
    if let Value::Net(net) = value {
        net.known();
    }
}

/// The union of two lists' exact summaries is the exact summary of both lists.
pub fn net_union_is_exact()
    ensures { (first second : List Value) (s t : NetSummary) → IsSummary s → IsSummary t → ExactSummary first s → ExactSummary second t → ExactSummary (first ++ second) (united s t) }
{}
