// The words of an audit.
ghost use Rattle.std.specs.Prelude.{◌≡◌, ◌<◌, None, Some, IfSome, IfOk, IfErr, true, false, map, string_bytes};
ghost use Rattle.request_names.specs.Numbers.{number_of};
ghost use Rattle.audit_command.specs.Audits.{dump_word, is_count, misfit};

use command_ends::is_file_word;
use request_names::read_number;

/// The most workers.
const MOST_WORKERS: u64 = 64;

// How many workers a word asks for, if it is from 1 to 64.
fn count_of(word: &str) -> Option<u64>
    ensures some { IfSome result (λ n. (is_count (number_of word.now) ≡ true) × (0 < n)) }
    ensures none { result ≡ None → is_count (number_of word.now) ≡ false }
{
    match read_number(word) {
        Some(count) if count != 0 && count <= MOST_WORKERS => Some(count),
        _ => None,
    }
}

/// The word for the dump and how many workers may judge it, or the index of the first word that doesn't fit, which is the
/// number of words where one is missing.
pub(crate) fn asked(words: &[String]) -> Result<(&str, u64), u64>
    ensures fit { IfOk result (λ asked. misfit (map string_bytes words.now) ≡ None) }
    ensures dump { IfOk result (λ asked. dump_word (map string_bytes words.now) ≡ asked.0.now) }
    ensures workers { IfOk result (λ asked. 0 < asked.1) }
    ensures misfit { IfErr result (λ place. misfit (map string_bytes words.now) ≡ Some place) }
{
    match words {
        [] => Err(0),
        [audit, ..] if audit.as_str() != "audit" => Err(0),
        [_] => Err(1),
        [_, dump, ..] if !is_file_word(dump.as_str()) => Err(1),
        [_, _] => Err(2),
        [_, _, workers, ..] if count_of(workers.as_str()).is_none() => Err(2),
        [_, dump, workers] => match count_of(workers.as_str()) {
            Some(workers) => Ok((dump.as_str(), workers)),
            None => Err(2),
        },
        _ => Err(3),
    }
}
