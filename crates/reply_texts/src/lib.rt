//! The texts of replies: the lines that a session is answered, the line of a statement that is started and of each step before
//! its last, the line of a refusal of a line that isn't read, and the line of each request that a full queue dropped, exactly
//! as specs/ says. After a refusal nothing is printed. It stands on
//! block_model for replies, on value_text for values and on itoa for numbers.
#![tactic(auto)]

mod dropped;
mod refusal;
mod reply;
mod step;
mod text;

pub use dropped::{Dropped, render_dropped};
pub use refusal::render_refusal;
pub use reply::render;
pub use step::{render_moved, render_started};
