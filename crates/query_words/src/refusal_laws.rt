//! Where statements are refused.

ghost use Rattle.query_words.specs.RefusalPlaces.{PlacesOfRefusals, WordsAscend, CondsAscend, StatementAscends};

use value_text::value_of_is_denoted;

/// A statement whose table isn't declared is refused with 2 at the table's word; else it is read where no word is out of place,
/// and refused with 3 at the first that is.
pub fn places_of_refusals()
    ensures { PlacesOfRefusals }
{
    value_of_is_denoted();
}

/// The words of a line stand one behind another, and so do those of the conditions that are read from them. So any statement
/// of a line meets what `places_of_refusals` needs.
pub fn words_stand_in_order()
    ensures words { WordsAscend }
    ensures conds { CondsAscend }
    ensures statement { StatementAscends }
{}
