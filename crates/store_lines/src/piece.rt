// What a line of a store says.
use crate::line::Line;

/// What a line of a store says.
#[derive(Drop)]
pub enum Piece {
    /// This text.
    Text(Line),
    /// All lines before it were safe when it was written, and the file was so long on the disk.
    Safe(u64),
    /// The same, and nothing was to come.
    Stopped(u64),
}
