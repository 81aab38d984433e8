// The statuses with which the program ends, whatever the command.

/// All is done and written.
pub const DONE: u8 = 0;

/// A word doesn't fit, or one is missing.
pub const MISUSED: u8 = 2;

/// A world, a line of a script or a dump is refused.
pub const REFUSED: u8 = 3;

/// A file or the input can't be read.
pub const UNREAD: u8 = 4;

/// All is done, and a write of it failed.
pub const UNWRITTEN: u8 = 5;

/// Memory is wanting.
pub const LACKING: u8 = 6;

/// A door can't be listened at.
pub const NO_DOOR: u8 = 7;

/// A worker can't be started.
pub const NO_WORKER: u8 = 8;

/// A receipt isn't that of the journal, or two are of one answer.
pub const AMISS: u8 = 9;
