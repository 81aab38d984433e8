// Values of the handler language.
use lang_tree::{Copied, NoMemory, Text};
use std::alloc::Global;

/// A value of the handler language.
#[derive(Drop)]
pub enum Value {
    /// A number.
    Int(i64),
    /// A text.
    Str(Text),
    /// What a key has that isn't in its table.
    Nothing,
}

impl Copied for Value {
    fn copied(&self, alloc: Global) -> Result<Value, NoMemory> {
        match self {
            Value::Int(n) => Ok(Value::Int(*n)),
            Value::Str(text) => Ok(Value::Str(text.copied(alloc)?)),
            Value::Nothing => Ok(Value::Nothing),
        }
    }
}
