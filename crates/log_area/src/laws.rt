//! What an area holds is a function of its bytes.

ghost use Rattle.std.specs.Prelude.{List, ℕ};
ghost use Rattle.log_area.specs.OpensInOneWay.{OpensInOneWay};

/// The bytes of an area are those of one list of frames at most, or have a frame that passes the area at one offset at most, and
/// never both.
pub fn an_area_opens_in_one_way()
    ensures { (area : List ℕ) → OpensInOneWay area }
{}
