//! That a store may go to another thread.

use crate::store::Store;
use disk_trait::Disk;

/// A store may stand behind a lock that threads share where its disk may go to another thread. Does nothing: it compiles only where that is so.
pub fn a_store_goes_to_threads<D: Disk + Send + Drop>(store: &Store<D>) {
    in_threads(store);
}

fn in_threads<T: Send>(_value: &T) {}
