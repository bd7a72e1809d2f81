//! Transactions that begin and end, and the numbers of their statuses on the disk.

use crate::status_pages::new_disk;
use crate::trial::{Trial, opened};
use disk_trait::Disk;
use std::alloc::Global;

fn begins<D: Disk + Drop>(trial: &mut Trial<D>, number: u64) -> bool {
    match trial.begin() {
        Ok(found) => found == number,
        Err(_) => false,
    }
}

/// Whether three transactions begin with the numbers 1, 2 and 3, and the first commits and the second rolls back; and the byte of their
/// statuses.
fn three_of<D: Disk + Drop>(trial: &mut Trial<D>) -> ([bool; 5], Option<u8>) {
    let did = [
        begins(trial, 1),
        begins(trial, 2),
        begins(trial, 3),
        trial.commit(1),
        trial.rollback(2),
    ];
    (did, trial.byte(32))
}

/// The same over a new store. `None` is want of memory.
fn three_of_new(alloc: Global) -> Option<([bool; 5], Option<u8>)> {
    let mut trial = opened(alloc, new_disk(alloc, 1)?)?;
    Some(three_of(&mut trial))
}

#[test]
fn statuses_have_their_numbers(rt: HostRuntime) {
    // Entry 1 is 2, entry 2 is 3 and entry 3 is 1: 2 times 4, 3 times 16 and 64.
    let wanted = ([true; 5], Some(120));
    assert_eq!(rt; three_of_new(rt.alloc()), Some(wanted));
}
