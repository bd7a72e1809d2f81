//! The writer's side.

ghost use Rattle.std.specs.Prelude.{◌≡◌, ◌<◌, ◌^◌, ◌++◌, ◌∷◌, [], length, drop, IfOk, MatchResult};
ghost use Rattle.left_right.specs.Sides.{view};
ghost use Rattle.bitmap_scan.specs.ScanHands.{scanned_indexes};
ghost use Rattle.summary_directory.specs.Rule.{kept};
ghost use Rattle.summary_directory.specs.ShelfFold.{no_posts};

use crate::judge::judges_of;
use crate::kept::Learnt;
use crate::post::Post;
use crate::reader::Told;
use crate::rule::{Batch, Folds, Notes, Publishes};
use crate::shelf::Shelf;
use block_model::NoMemory;
use core::mem::replace_with;
use left_right::writer::Writer;
use std::alloc::{AllocError, Global};
use std::marker::{Brand, Model};
use std::sync::Wait;
use store_layout::Layout;

pub type ShelfWriter = Writer<Shelf, Post, Learnt, Folds>;

/// The posts of a store. Seen as those that readers see, and those that wait to be published. It isn't `Drop`: end it by `close`.
pub struct Directory {
    writer: ShelfWriter,
    pending: u64,
}

impl Model for Directory {
    ghost use Rattle.std.specs.Prelude.{◌≡◌, drop, length};
    ghost use Rattle.left_right.specs.Sides.{view as knows};
    ghost use Rattle.summary_directory.specs.Posts.{Posts};

    ghost Value = { Posts };

    ghost view = { λ d. record { shown = (knows d.writer.desk.place).seen; waiting = drop d.writer.behind d.writer.log.items } };

    ghost invariant = { λ d. (d.writer.desk.shown.value.posts ≡ length (knows d.writer.desk.place).seen) × (d.pending ≡ length (drop d.writer.behind d.writer.log.items)) };
}

impl Directory {
    /// Nothing is posted. There may be so many readers at once.
    pub fn new(alloc: Global, readers: usize) -> Result<Directory, NoMemory>
        requires { (0 < readers) × (readers < 2 ^ 32) }
        ensures { IfOk result (λ d. (d.shown ≡ []) × (d.waiting ≡ [])) }
    {
        let first = empty_shelf(alloc);
        let second = empty_shelf(alloc);
        let writer: ShelfWriter = Writer::new(alloc, first, second, readers)?;
        Ok(Directory { writer, pending: 0 })
    }

    /// The post waits behind the others. After a refusal nothing is changed.
    pub fn post(&mut self, post: Post) -> Result<(), NoMemory>
        ensures { MatchResult result (λ _. (self.new.shown ≡ self.old.shown) × (self.new.waiting ≡ self.old.waiting ++ post ∷ [])) (λ _. self.new ≡ self.old) }
    {
        let Some(pending) = self.pending.checked_add(1) else {
            return Err(NoMemory);
        };
        match self.writer.append(post) {
            Ok(()) => {
                self.pending = pending;
                Ok(())
            }
            Err(_) => Err(NoMemory),
        }
    }

    /// How many posts wait.
    pub fn pending(&self) -> u64
        ensures { result ≡ length self.now.waiting }
    {
        self.pending
    }

    /// Shows readers all posts. After a refusal all wait still. If none waits it does nothing, and waits for nobody; else it may wait for
    /// readers that are at the copy from before.
    pub fn publish<R: Wait>(&mut self, rt: &R) -> Result<(), NoMemory>
        ensures { MatchResult result (λ _. (self.new.shown ≡ self.old.shown ++ self.old.waiting) × (self.new.waiting ≡ [])) (λ _. self.new ≡ self.old) }
    {
        if !self.writer.has_pending_operations() {
            return Ok(());
        }
        match publish_in(rt, &mut self.writer) {
            Ok(()) => {
                self.pending = 0;
                Ok(())
            }
            Err(_) => Err(NoMemory),
        }
    }

    /// A reader for queries of the table, which was told of all posts that are published. Takes the memory of a tuple of each index of the
    /// table. It is refused too where as many readers are at work as there may be.
    pub fn tell(&mut self, alloc: Global, layout: &Layout, table: u8) -> Result<Told, NoMemory>
        ensures told { IfOk result (λ t. (t.told ≡ self.old.shown) × (t.indexes ≡ scanned_indexes layout.now table)) }
        ensures same { self.new ≡ self.old }
    {
        let judges = judges_of(alloc, layout, table)?;
        let posts = self.writer.published().posts;
        let mut reader = self.writer.factory().reader()?;
        reader.learn::<Notes>(self.writer.tell::<Notes>());
        Ok(Told::of(reader, judges, posts))
    }

    /// Ends the directory; posts that wait are lost. It waits for readers.
    pub fn close<R: Wait>(self, rt: &R) {
        let Directory { writer, pending: _ } = self;
        drop(writer.take(rt));
    }
}

/// A shelf of no posts. Takes no memory.
fn empty_shelf(alloc: Global) -> Shelf
    ensures { kept result ≡ no_posts }
{
    Shelf {
        alloc,
        tuples: Vec::new(alloc),
        extents: Vec::new(alloc),
        posts: 0,
    }
}

/// Shows readers all posts that wait; after a refusal nothing is changed.
fn publish_in<R: Wait>(rt: &R, writer: &mut ShelfWriter) -> Result<(), AllocError>
    requires counted { writer.old.desk.shown.value.posts ≡ length (view writer.old.desk.place).seen }
    ensures shown { MatchResult result (λ _. ((view writer.new.desk.place).seen ≡ (view writer.old.desk.place).seen ++ drop writer.old.behind writer.old.log.items) × (writer.new.desk.shown.value.posts ≡ length (view writer.new.desk.place).seen) × (drop writer.new.behind writer.new.log.items ≡ [])) (λ _. (view writer.new.desk.place ≡ view writer.old.desk.place) × (writer.new.desk.shown.value ≡ writer.old.desk.shown.value) × (drop writer.new.behind writer.new.log.items ≡ drop writer.old.behind writer.old.log.items)) }
{
    replace_with(writer, rt, |writer, rt| publish_all(rt, writer))
}

/// The same of a writer in hand, which comes back.
fn publish_all<R: Wait>(rt: &R, writer: ShelfWriter) -> (ShelfWriter, Result<(), AllocError>)
    requires counted { writer.desk.shown.value.posts ≡ length (view writer.desk.place).seen }
    ensures shown { MatchResult result.1 (λ _. ((view result.0.desk.place).seen ≡ (view writer.desk.place).seen ++ drop writer.behind writer.log.items) × (result.0.desk.shown.value.posts ≡ length (view result.0.desk.place).seen) × (drop result.0.behind result.0.log.items ≡ [])) (λ _. (view result.0.desk.place ≡ view writer.desk.place) × (result.0.desk.shown.value ≡ writer.desk.shown.value) × (drop result.0.behind result.0.log.items ≡ drop writer.behind writer.log.items)) }
{
    publish_batch::<Brand, R>(rt, writer)
}

/// Shows readers the posts of the batch, which are those that wait.
fn publish_batch<B: Batch, R: Wait>(
    rt: &R,
    writer: ShelfWriter,
) -> (ShelfWriter, Result<(), AllocError>)
    requires batch { drop writer.behind writer.log.items ≡ B.posts }
    requires counted { writer.desk.shown.value.posts ≡ length (view writer.desk.place).seen }
    ensures shown { MatchResult result.1 (λ _. ((view result.0.desk.place).seen ≡ (view writer.desk.place).seen ++ B.posts) × (result.0.desk.shown.value.posts ≡ length (view result.0.desk.place).seen) × (drop result.0.behind result.0.log.items ≡ [])) (λ _. (view result.0.desk.place ≡ view writer.desk.place) × (result.0.desk.shown.value ≡ writer.desk.shown.value) × (drop result.0.behind result.0.log.items ≡ drop writer.behind writer.log.items)) }
{
    writer.publish_as::<Publishes<B>, R>(rt)
}
