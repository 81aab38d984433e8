// The kinds of repair messages and orders.
ghost use Rattle.std.specs.Prelude.{◌≡◌};
ghost use Rattle.repair_messages.specs.Kinds.{kind_of, kind_word, spelling};

use crate::messages::SetMessage;

/// What a message or an order asks for, as rules see it and as it is spelled.
#[derive(Clone, Copy, PartialEq, Eq)]
pub enum Kind {
    /// An entry that isn't there yet.
    Create,
    /// Another request in place of an entry's.
    Replace,
    /// That an entry has no effect any more.
    Delete,
    /// Another answer to a call, which a token announces.
    ReplaceResponse,
    /// That a post which was refused is sent again.
    Retry,
    /// That the first entries of a log are folded: nothing of them is repaired any more.
    Fold,
    /// Another program from now on.
    Deploy,
    /// Another program in place of an earlier one, for the past too.
    Correct,
    /// Other rules from now on.
    Rules,
}

/// What the message asks of a receiver: a deletion where it has no request, else a replacement where the receiver
/// knows an entry of the call, else a creation.
pub fn kind_of(message: &SetMessage, known: bool) -> Kind
    ensures { result ≡ kind_of message.now known }
{
    match &message.desired {
        None => Kind::Delete,
        Some(_) => { if known { Kind::Replace } else { Kind::Create } }
    }
}

/// The word under which the message is sent: a deletion where it has no request, else a creation at version 1, else a
/// replacement. No rule asks for it.
pub fn spelling(message: &SetMessage) -> Kind
    ensures { result ≡ spelling message.now }
{
    match &message.desired {
        None => Kind::Delete,
        Some(_) => {
            if message.version == 1 {
                Kind::Create
            } else {
                Kind::Replace
            }
        }
    }
}

/// The word of a kind.
pub fn kind_word(kind: Kind) -> &'static str
    ensures { result.now ≡ kind_word kind }
{
    match kind {
        Kind::Create => "create",
        Kind::Replace => "replace",
        Kind::Delete => "delete",
        Kind::ReplaceResponse => "replace_response",
        Kind::Retry => "retry",
        Kind::Fold => "fold",
        Kind::Deploy => "deploy",
        Kind::Correct => "correct",
        Kind::Rules => "rules",
    }
}
