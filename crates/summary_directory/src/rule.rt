//! The rule of the directory, and what its steps tell.

use crate::kept::Learnt;
use crate::post::Post;
use crate::shelf::Shelf;
use atomic_table::{Join, Split};
use crossbeam_utils::rule::{Outcome, Protocol};
use std::marker::{Brand, PhantomData};

/// The shelf is the fold of one list of posts, which begins with what each seat has seen and with what it was told of.
pub struct Folds;

impl Protocol<Shelf, Learnt> for Folds {
    ghost use Rattle.summary_directory.specs.Rule.{Keeps, newcomer};

    ghost holds = { Keeps };

    ghost first = { newcomer };
}

/// A reader takes the shelf.
pub struct Looks;

impl Outcome<Shelf, Learnt> for Looks {
    ghost use Rattle.summary_directory.specs.Rule.{Looked};

    ghost then = { Looked };
}

/// Names the posts of one publishing.
pub trait Batch {
    ghost use Rattle.std.specs.Prelude.{List};
    ghost use Rattle.summary_directory.specs.declared.post.Post.{Post};

    ghost posts: { List Post };
}

impl Batch for Brand {
    ghost use Rattle.std.specs.Prelude.{[]};

    ghost posts = { [] };
}

/// The writer shows the posts of the batch.
pub struct Publishes<B> {
    of: PhantomData<B>,
}

impl<B: Batch> Outcome<Shelf, Learnt> for Publishes<B> {
    ghost use Rattle.summary_directory.specs.Rule.{Published};

    ghost then = { Published B.posts };
}

/// The writer tells a reader what it has shown.
pub struct Notes;

impl Split<Learnt> for Notes {
    ghost left = { λ v. v };

    ghost right = { λ v. v };
}

impl Join<Learnt> for Notes {
    ghost use Rattle.summary_directory.specs.Rule.{informed, newcomer};

    ghost both = { informed };

    ghost spent = { newcomer };
}
