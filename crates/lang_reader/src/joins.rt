// What was read, joined with what is read behind it. A tree is handed on and not held where reading may stop.
ghost use Rattle.std.specs.Prelude.{◌≡◌, Ok, Err, IfOk, IfErr, IsOkAnd};
ghost use Rattle.lang_reader.specs.declared.stop.ReadFailed.{ReadFailed};
ghost use Rattle.lang_reader.specs.declared.stop.ReadFailed.TheVariants as failed;

use crate::stop::ReadFailed;
use lang_base::NoMemory;
use lang_tokens::Token;

/// A part that was made of tokens, if there was memory for it, and the tokens behind them.
pub fn made<A: Drop>(part: Result<A, NoMemory>, rest: &[Token]) -> Result<(A, &[Token]), ReadFailed>
    ensures ok { IfOk result (λ x. (part ≡ Ok x.0) × (x.1.now ≡ rest.now)) }
    ensures err { IfErr result (λ e. e ≡ failed.NoMemory) }
{
    match part {
        Ok(part) => Ok((part, rest)),
        Err(_) => Err(ReadFailed::NoMemory),
    }
}

/// A part, and the tokens behind its mark.
pub fn before<'a, A: Drop>(
    part: A,
    mark: Result<&'a [Token], ReadFailed>,
) -> Result<(A, &'a [Token]), ReadFailed>
    ensures ok { IfOk result (λ x. (x.0 ≡ part) × IsOkAnd mark.entry (λ rest. rest.now ≡ x.1.now)) }
    ensures err { IfErr result (λ e. mark.entry ≡ Err e) }
{
    match mark {
        Ok(rest) => Ok((part, rest)),
        Err(e) => Err(e),
    }
}

/// A part, and what is read behind it.
pub fn beside<'a, A: Drop, B: Drop>(
    first: A,
    second: Result<(B, &'a [Token]), ReadFailed>,
) -> Result<((A, B), &'a [Token]), ReadFailed>
    ensures ok { IfOk result (λ x. (x.0.0 ≡ first) × IsOkAnd second.entry (λ y. (y.0 ≡ x.0.1) × (y.1.now ≡ x.1.now))) }
    ensures err { IfErr result (λ e. second.entry ≡ Err e) }
{
    match second {
        Ok((part, rest)) => Ok(((first, part), rest)),
        Err(e) => Err(e),
    }
}
