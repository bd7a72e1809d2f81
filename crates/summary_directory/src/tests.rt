//! The blocks that are given as posts are published, and a reader that answers while the writer is held amid a publishing.

use crate::directory::Directory;
use crate::post::Post;
use crate::reader::Told;
use crate::rule::Looks;
use block_model::{Cond, Conds, Op, Query, Value};
use kept_tuples::TupleBytes;
use std::alloc::Global;
use std::sync::Wait;
use std::sync::atomic::{AtomicU64, Ordering};
use std::thread;
use std::thread::{Threads, join};
use store_layout::{LEAST, Layout, indexed_layout};

/// The turns of a wait, behind which a test has failed.
const TURNS: u64 = 100_000_000;

/// The turns for which a reader lets the writer begin its publishing.
const SOME_TURNS: u64 = 100_000;

/// The final tuple of range 0 with the numbers from 5 on: the range, no flag, a state with values, the length of the summary, the least number,
/// and the first seven bytes of the greatest.
const FROM_5: [u8; 23] = [
    0, 0, 0, 0, 0, 2, 0, 16, 0, 0, 0, 0, 0, 0, 0, 5, 0, 0, 0, 0, 0, 0, 0,
];

/// Table 0 has one block.
fn post_extent(directory: &mut Directory) -> Option<()> {
    let table = 0;
    let blocks = 1;
    directory.post(Post::Extent { table, blocks }).ok()
}

/// Range 0 of index 0 has the numbers from 5 up to this one.
fn post_range(alloc: Global, directory: &mut Directory, greatest: u8) -> Option<()> {
    let mut bytes = Vec::new(alloc);
    bytes.extend_from_slice(&FROM_5).ok()?;
    bytes.push(greatest).ok()?;
    let post = Post::Set {
        index: 0,
        range: 0,
        bytes: TupleBytes::of(bytes),
    };
    directory.post(post).ok()
}

/// The query `a = NUMBER` of table 0.
fn query(alloc: Global, number: i64) -> Option<Query> {
    let mut conds = Conds::new(alloc);
    conds
        .push(Cond {
            column: 0,
            op: Op::Eq,
            key: Value::Int(number),
        })
        .ok()?;
    Some(Query { table: 0, conds })
}

/// How many blocks a fresh reader is given for `a = NUMBER`.
fn ask(alloc: Global, directory: &mut Directory, layout: &Layout, number: i64) -> Option<usize> {
    let query = query(alloc, number)?;
    let mut told = directory.tell(alloc, layout, 0).ok()?;
    let blocks = told.given(alloc, &query).ok()?;
    Some(blocks.len())
}

/// The blocks for 5 and for 9 where the range has 5 alone, and for 9 once it has 9 too.
fn explain<R: Wait>(
    rt: &R,
    alloc: Global,
    directory: &mut Directory,
    layout: &Layout,
) -> Option<[usize; 3]> {
    post_extent(directory)?;
    post_range(alloc, directory, 5)?;
    directory.publish(rt).ok()?;
    let five = ask(alloc, directory, layout, 5)?;
    let nine = ask(alloc, directory, layout, 9)?;
    post_range(alloc, directory, 9)?;
    directory.publish(rt).ok()?;
    let later = ask(alloc, directory, layout, 9)?;
    Some([five, nine, later])
}

fn explained<R: Wait>(rt: &R, alloc: Global) -> Option<[usize; 3]> {
    let layout = indexed_layout(alloc, 1, LEAST)?;
    let mut directory = Directory::new(alloc, 1).ok()?;
    let found = explain(rt, alloc, &mut directory, &layout);
    directory.close(rt);
    found
}

#[test]
fn directory_explains_after_publish(rt: HostRuntime) {
    let found = explained(&rt, rt.alloc());
    assert_eq!(rt; found, Some([1, 0, 1]));
}

/// How many posts wait, and of how many a fresh reader is told.
fn count(alloc: Global, directory: &mut Directory, layout: &Layout) -> Option<[u64; 2]> {
    let told = directory.tell(alloc, layout, 0).ok()?;
    Some([directory.pending(), told.posts()])
}

/// The counts before a publishing of one post, and behind it.
fn counted<R: Wait>(rt: &R, alloc: Global) -> Option<[[u64; 2]; 2]> {
    let layout = indexed_layout(alloc, 1, LEAST)?;
    let mut directory = Directory::new(alloc, 1).ok()?;
    let found = count_twice(rt, alloc, &mut directory, &layout);
    directory.close(rt);
    found
}

fn count_twice<R: Wait>(
    rt: &R,
    alloc: Global,
    directory: &mut Directory,
    layout: &Layout,
) -> Option<[[u64; 2]; 2]> {
    post_extent(directory)?;
    let before = count(alloc, directory, layout)?;
    directory.publish(rt).ok()?;
    let behind = count(alloc, directory, layout)?;
    Some([before, behind])
}

#[test]
fn a_post_is_told_of_once_it_is_published(rt: HostRuntime) {
    let found = counted(&rt, rt.alloc());
    assert_eq!(rt; found, Some([[1, 0], [0, 1]]));
}

/// How far the three threads have come: each is 0, and then 1.
#[derive(Drop)]
struct Marks {
    /// A reader is at the copy that is shown first.
    inside: AtomicU64,
    /// The writer begins the publishing that needs this copy.
    begun: AtomicU64,
    /// Another reader has answered.
    answered: AtomicU64,
    /// The writer is done.
    done: AtomicU64,
}

/// Waits for the mark, for so many turns at most. It tells whether it came.
fn await_mark(mark: &AtomicU64) -> bool {
    for turn in 0..TURNS {
        if mark.load(Ordering::SeqCst) == 1 {
            return true;
        }
        if turn % 64 == 0 {
            thread::yield_now();
        }
    }
    false
}

/// Takes the shelf, and stays at it until the other reader has answered.
fn stay(told: Told, marks: &Marks) -> bool {
    match told.into_reader().enter_as::<Looks>() {
        Ok(reading) => {
            marks.inside.store(1, Ordering::SeqCst);
            let came = await_mark(&marks.answered);
            drop(reading.leave());
            came
        }
        Err(_) => false,
    }
}

/// Publishes a wider tuple, and then one post more: for that it needs the copy at which the first reader stays.
fn publish_twice<R: Wait>(
    rt: &R,
    alloc: Global,
    directory: &mut Directory,
    marks: &Marks,
) -> Option<()> {
    if !await_mark(&marks.inside) {
        return None;
    }
    post_range(alloc, directory, 9)?;
    directory.publish(rt).ok()?;
    post_extent(directory)?;
    marks.begun.store(1, Ordering::SeqCst);
    directory.publish(rt).ok()?;
    marks.done.store(1, Ordering::SeqCst);
    Some(())
}

/// How many blocks are given for 9 while the writer is held, and whether it was held still behind the answer.
fn answer(alloc: Global, mut told: Told, query: &Query, marks: &Marks) -> Option<(usize, bool)> {
    if !await_mark(&marks.begun) {
        return None;
    }
    for _ in 0..SOME_TURNS {
        thread::yield_now();
    }
    let blocks = told.given(alloc, query).ok()?;
    let held = marks.done.load(Ordering::SeqCst) == 0;
    marks.answered.store(1, Ordering::SeqCst);
    Some((blocks.len(), held))
}

/// What the first reader, the other one and the writer tell.
type Found = (bool, Option<(usize, bool)>, bool);

fn in_threads<R: Threads + Wait + Sync>(
    rt: &R,
    alloc: Global,
    directory: &mut Directory,
    layout: &Layout,
) -> Option<Found> {
    post_extent(directory)?;
    post_range(alloc, directory, 5)?;
    directory.publish(rt).ok()?;
    let first = directory.tell(alloc, layout, 0).ok()?;
    let other = directory.tell(alloc, layout, 0).ok()?;
    let query = query(alloc, 9)?;
    let marks = Marks {
        inside: AtomicU64::new(0),
        begun: AtomicU64::new(0),
        answered: AtomicU64::new(0),
        done: AtomicU64::new(0),
    };
    let (stayed, (answered, published)) = join(
        rt,
        || stay(first, &marks),
        || {
            join(
                rt,
                || answer(alloc, other, &query, &marks),
                || publish_twice(rt, alloc, directory, &marks).is_some(),
            )
        },
    );
    Some((stayed, answered, published))
}

fn answered_amid<R: Threads + Wait + Sync>(rt: &R, alloc: Global) -> Option<Found> {
    let layout = indexed_layout(alloc, 1, LEAST)?;
    let mut directory = Directory::new(alloc, 2).ok()?;
    let found = in_threads(rt, alloc, &mut directory, &layout);
    directory.close(rt);
    found
}

#[test]
fn a_reader_answers_while_the_writer_is_held(rt: HostRuntime) {
    let found = answered_amid(&rt, rt.alloc());
    assert_eq!(rt; found, Some((true, Some((1, true)), true)));
}
