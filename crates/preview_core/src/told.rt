// What a preview tells.
use lang_base::both;
use lang_core::{Copied, NoMemory, Response, Seq, Writes};
use repair_messages::{Kind, PostName};
use std::alloc::Global;

/// A request that would run again.
pub struct RanOne {
    /// Its number.
    pub id: u64,
    /// What it would answer in the end.
    pub response: Response,
}

impl Drop for RanOne {
    fn drop(self) {
        let Self { id: _, response: _ } = self;
    }
}

/// Requests that would run again, in the order in which they would.
pub type RanList = Seq<RanOne>;

/// A post that would be outstanding and isn't.
#[derive(Clone, Copy, PartialEq, Eq)]
pub struct PostOne {
    /// Which post.
    pub name: PostName,
    /// What its message would ask for.
    pub kind: Kind,
}

/// Posts: calls by their numbers, then replies by their entries.
pub type PostList = Seq<PostOne>;

/// What a repair would come to.
pub struct Preview {
    /// The requests that would run again.
    pub ran: RanList,
    /// The writes that lead from the rows as they are to those that would be, by table and key. A key whose text stays has none.
    pub rows: Writes,
    /// The posts that would be outstanding and aren't.
    pub posts: PostList,
}

impl Drop for Preview {
    fn drop(self) {
        let Self {
            ran: _,
            rows: _,
            posts: _,
        } = self;
    }
}

impl Copied for RanOne {
    fn copied(&self, alloc: Global) -> Result<RanOne, NoMemory> {
        Ok(RanOne {
            id: self.id,
            response: self.response.copied(alloc)?,
        })
    }
}

impl Copied for PostOne {
    fn copied(&self, _alloc: Global) -> Result<PostOne, NoMemory> {
        Ok(*self)
    }
}

impl Copied for Preview {
    fn copied(&self, alloc: Global) -> Result<Preview, NoMemory> {
        let lists = both(self.ran.copied(alloc), self.posts.copied(alloc));
        let (lists, rows) = both(lists, self.rows.copied(alloc))?;
        Ok(Preview {
            ran: lists.0,
            rows,
            posts: lists.1,
        })
    }
}
