// Where a service is reached, and what a request says of that.
ghost use Rattle.std.specs.Prelude.{◌≡◌, true, IfOk, OnOk, OnErr};
ghost use Rattle.http_front.specs.ReadBack.{IsWithin};
ghost use Rattle.http_front.specs.Writing.{request_bytes};
ghost use Rattle.http_header.specs.FieldValue.{plain_value};
ghost use Rattle.wire_fields.specs.Forms.{is_notifier};
ghost use Rattle.aire_wire.specs.ReadBack.{Carries};
ghost use Rattle.wire_bytes.specs.Doors.{is_door, notifier_of, with_host};

use http_front::WireRequest;
use http_header::HeaderValue;
use lang_core::{NoMemory, Text};
use std::alloc::Global;

/// What `Aire-Notifier-URL` says of the service at this door. It is of that field's form exactly where the door is one, of
/// 1 to 64 visible characters.
#[tactic(auto, using(crate::proofs::DoorLemmas::notifier_form))]
pub fn notifier_of(alloc: Global, door: &Text) -> Result<Text, NoMemory>
    ensures text { IfOk result (λ text. text ≡ notifier_of door.now) }
    ensures form { is_notifier (notifier_of door.now) ≡ is_door door.now }
{
    let door = door.as_str();
    let text = format!(in alloc; "http://{door}/aire/notify")?;
    Text::shared(text)
}

fn host_value(alloc: Global, address: &str) -> Result<HeaderValue, NoMemory>
    ensures { IfOk result (λ value. value ≡ plain_value address.now) }
{
    match HeaderValue::from_bytes(alloc, address.as_bytes()) {
        Ok(value) => Ok(value),
        Err(_) => Err(NoMemory),
    }
}

/// Says in a request's head to which address it is sent, in place of what the head said of that. The request still says
/// what it said. An address that no field can hold, as one with a line feed, is answered as memory that lacks.
pub fn add_host(alloc: Global, request: &mut WireRequest, address: &str) -> Result<(), NoMemory>
    ensures host { OnOk result (request.new ≡ with_host address.now request.old) }
    ensures carries { is_door address.now ≡ true → IsWithin (request_bytes (with_host address.now request.old)) request.old.body
        → Carries (with_host address.now request.old) request.old }
    ensures err { OnErr result (request.new ≡ request.old) }
{
    let value = host_value(alloc, address)?;
    match request.head.insert("host", value) {
        Ok(_) => Ok(()),
        Err(_) => Err(NoMemory),
    }
}
