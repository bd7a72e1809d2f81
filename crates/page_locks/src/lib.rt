//! Who holds the lock of a page, and who the summarise lock of a table, as data in memory: nothing waits here. Several
//! page locks are taken in one call, all or none, and a refusal names the first that another actor holds, and that actor. Page
//! locks are seen as a finite map from pages to their holders, summarise locks as a list of holders by table; `new` takes
//! all memory. It stands on block_model. The statements' steps above rest on the words in specs/.
#![tactic(auto)]

mod did;
mod held;
mod laws;
mod locks;
mod rights;

pub use block_model::Point;
pub use did::Did;
pub use held::Held;
pub use laws::{a_taken_lock_is_given_back, few_locks_are_held};
pub use locks::Locks;
pub use rights::Rights;
