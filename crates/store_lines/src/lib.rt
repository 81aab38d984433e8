//! The lines of a store, as bytes: how a line is numbered and sealed, what it says, and which marks stand in bytes that are no whole lines.
#![tactic(auto)]

mod batch;
mod ends;
mod line;
mod marks;
mod piece;
mod reading;
mod seals;

pub use batch::{Batch, NotTaken};
pub use ends::end_of;
pub use line::Line;
pub use marks::{LONGEST_MARK, mark_ahead};
pub use piece::Piece;
pub use reading::piece_of;
pub use seals::{put_piece, put_text};
