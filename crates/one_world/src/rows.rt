// The rows of a world.
use lang_core::{Cells, Name, Seq};

/// A service's rows.
pub struct Rows {
    pub service: Name,
    pub rows: Cells,
}

impl Drop for Rows {
    fn drop(self) {
        let Self {
            service: _,
            rows: _,
        } = self;
    }
}

/// The rows of each service of a world, in its order.
pub type WorldRows = Seq<Rows>;
