//! What holds of every summary.

ghost use Rattle.std.specs.Prelude.{◌≡◌, false, List};
ghost use Rattle.block_model.specs.declared.row.Cond.{Cond};
ghost use Rattle.block_model.specs.declared.value.Value.{Value};
ghost use Rattle.opclass_api.specs.Conditions.{AllCompare, meets_all};
ghost use Rattle.opclass_minmax.specs.Bounds.{Bounds};
ghost use Rattle.opclass_minmax.specs.Consistent.{consistent};
ghost use Rattle.opclass_minmax.specs.Includes.{Includes};

/// A summary that can't hold a match of the conditions includes no value that meets them.
pub fn a_summary_misses_no_match()
    ensures { (s : Bounds) (conds : List Cond) (v : Value) → AllCompare conds → consistent s conds ≡ false → Includes s v → meets_all conds v ≡ false }
{}
