//! Which of two clean pages leaves a pool.

use buffer_pool::Pool;
use page_layout::Page;
use std::alloc::Global;

fn is_set(pool: &mut Pool, page: u64) -> bool {
    pool.set(page, &Page::zeroed(), None).is_ok()
}

fn is_held(pool: &mut Pool, page: u64) -> bool {
    pool.get(page).is_some()
}

/// Which of the pages 2, 3 and 4 a pool of two frames holds, where 1, 2 and 3 were set, so that 1 left it, then that page was read, and
/// then 4 was set.
fn held_behind(alloc: Global, read: u64) -> Option<[bool; 3]> {
    let mut pool = Pool::new(alloc, 2).ok()?;
    if !is_set(&mut pool, 1) || !is_set(&mut pool, 2) || !is_set(&mut pool, 3) {
        return None;
    }
    if !is_held(&mut pool, read) || !is_set(&mut pool, 4) {
        return None;
    }
    Some([
        is_held(&mut pool, 2),
        is_held(&mut pool, 3),
        is_held(&mut pool, 4),
    ])
}

#[test]
fn a_page_that_was_read_has_a_second_chance(rt: HostRuntime) {
    let found = [held_behind(rt.alloc(), 2), held_behind(rt.alloc(), 3)];
    assert_eq!(rt;
        found,
        [Some([true, false, true]), Some([false, true, true])]
    );
}
