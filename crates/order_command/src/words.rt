// The words that ask for an order.
ghost use Rattle.std.specs.Prelude.{◌≡◌, None, Some, IfOk, IfErr, map, string_bytes};
ghost use Rattle.audit_command.specs.Audits.{dump_word};
ghost use Rattle.order_command.specs.Orders.{misfit};

use command_ends::is_file_word;

/// The word for the dump, or the index of the first word that doesn't fit, which is the number of words where one is missing.
pub(crate) fn asked(words: &[String]) -> Result<&str, u64>
    ensures fit { IfOk result (λ path. misfit (map string_bytes words.now) ≡ None) }
    ensures dump { IfOk result (λ path. dump_word (map string_bytes words.now) ≡ path.now) }
    ensures misfit { IfErr result (λ place. misfit (map string_bytes words.now) ≡ Some place) }
{
    match words {
        [] => Err(0),
        [order, ..] if order.as_str() != "order" => Err(0),
        [_] => Err(1),
        [_, dump, ..] if !is_file_word(dump.as_str()) => Err(1),
        [_, dump] => Ok(dump.as_str()),
        _ => Err(2),
    }
}
