//! What of the grammar the program answers.

/// Whether an index may be declared with ` autosummarize`: a session takes up what inserts ask for.
pub const ANSWERS_AUTOSUMMARIZE: bool = true;
