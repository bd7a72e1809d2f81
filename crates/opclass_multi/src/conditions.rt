//! Conditions, judged by elements.

ghost use Rattle.std.specs.Prelude.{◌≡◌};
ghost use Rattle.std.specs.List.{list_any};
ghost use Rattle.opclass_multi.specs.Consistent.{all_hold, may_meet};

use crate::element::Element;
use block_model::Cond;
use opclass_api::key_holds;

/// Whether there is no condition, or one element meets them all.
pub(crate) fn may_meet(elements: &[Element], conds: &[Cond]) -> bool
    ensures { result ≡ may_meet elements.now conds.now }
{
    conds.is_empty() || any_meets(elements, conds)
}

fn any_meets(elements: &[Element], conds: &[Cond]) -> bool
    ensures { result ≡ list_any (all_hold conds.now) elements.now }
{
    elements.iter().any(|element| all_hold(element, conds))
}

fn all_hold(element: &Element, conds: &[Cond]) -> bool
    ensures { result ≡ all_hold conds.now element.now }
{
    conds.iter().all(|cond| key_holds(element.least, element.greatest, cond.op, &cond.key))
}
