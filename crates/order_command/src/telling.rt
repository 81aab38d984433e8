// What is written of an order, or of two entries that show that there is none.
ghost use Rattle.std.specs.Prelude.{◌≡◌, ◌++◌, IfOk, OnOk, string_bytes};
ghost use Rattle.order_command.specs.Orders.{cycle_line, id_line, order_lines};

use lang_core::RequestId;
use one_order::Ids;
use std::alloc::{AllocError, Global};

fn push_id(alloc: Global, text: &mut String, id: &RequestId) -> Result<(), AllocError>
    ensures { OnOk result (string_bytes text.new ≡ string_bytes text.old ++ id_line id.now) }
{
    let name = id.service.text().as_str();
    let number = id.number;
    let line = format!(in alloc; "{name}/{number}\n")?;
    text.push_str(line.as_str())
}

/// How many roots an order has, and each of them on a line of its own.
pub(crate) fn order_lines(alloc: Global, order: &Ids) -> Result<String, AllocError>
    ensures { IfOk result (λ text. string_bytes text ≡ order_lines order.now) }
{
    let ids = order.as_slice();
    let count = ids.len();
    let mut text = format!(in alloc; "order {count}\n")?;
    for id in ids {
        push_id(alloc, &mut text, id)?;
    }
    Ok(text)
}

/// The line of two entries that show that there is no order.
pub(crate) fn cycle_line(
    alloc: Global,
    first: &RequestId,
    second: &RequestId,
) -> Result<String, AllocError>
    ensures { IfOk result (λ line. string_bytes line ≡ cycle_line first.now second.now) }
{
    let first_name = first.service.text().as_str();
    let first_number = first.number;
    let second_name = second.service.text().as_str();
    let second_number = second.number;
    format!(in alloc; "cycle {first_name}/{first_number} {second_name}/{second_number}\n")
}
