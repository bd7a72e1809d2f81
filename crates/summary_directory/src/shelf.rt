//! The shelf: what posts show, as readers take it.

ghost use Rattle.summary_directory.specs.ShelfFold.{step};

use crate::kept::Kept;
use crate::post::Post;
use kept_tuples::{Ranges, put_at, put_tuple};
use left_right::Absorb;
use std::alloc::{AllocError, Global};

/// The fold of posts: the tuples by index and range, and the blocks by table; and how many posts there were.
#[derive(Drop)]
pub struct Shelf {
    pub alloc: Global,
    pub tuples: Vec<Ranges>,
    pub extents: Vec<u32>,
    pub posts: u64,
}

impl Absorb<Post> for Shelf {
    type State = Kept;

    ghost state = { λ s. record { tuples = s.tuples.items; extents = s.extents.items; posts = s.posts } };

    ghost applied = { step };

    fn absorb_first(&mut self, operation: &Post, _other: &Shelf) -> Result<(), AllocError> {
        let Some(posts) = self.posts.checked_add(1) else {
            return Err(AllocError);
        };
        match operation {
            Post::Set {
                index,
                range,
                bytes,
            } => {
                let bytes = bytes.copy()?;
                put_tuple(self.alloc, &mut self.tuples, *index, *range, Some(bytes))?;
            }
            Post::Clear { index, range } => {
                put_tuple(self.alloc, &mut self.tuples, *index, *range, None)?;
            }
            Post::Extent { table, blocks } => {
                put_at(self.alloc, &mut self.extents, usize::from(*table), *blocks)?;
            }
        }
        self.posts = posts;
        Ok(())
    }
}
