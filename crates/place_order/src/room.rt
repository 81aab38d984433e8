// Room for labels to come.
ghost use Rattle.std.specs.Prelude.{◌≡◌, ◌↔◌, ◌+◌, ◌≤◌, [], ◌∷◌, ◌++◌, false, IsTrue, OnOk, OnErr, IsOk, position, vec_len, vec_capacity};
ghost use Rattle.lang_base.specs.Equal.{equal};
ghost use Rattle.lang_lists.specs.Room.{is_made, spend};
ghost use Rattle.place_order.specs.Rooms.{call_code};

use lang_base::NoMemory;
use lang_lists::take_room;

/// A call of an order that makes a label. Room for it is such a call in advance.
#[derive(Clone, Copy, PartialEq, Eq)]
pub enum OrderCall {
    /// A label at the end.
    Append,
    /// A label before another.
    InsertBefore,
    /// A label after another.
    InsertAfter,
}

fn is_call(made: OrderCall, call: OrderCall) -> bool
    ensures { IsTrue result ↔ (call ≡ made) }
{
    call == made
}

fn passes(made: OrderCall, call: OrderCall) -> bool
    ensures { result ≡ equal call_code call made }
{
    is_call(made, call)
}

fn room_place(room: &[OrderCall], call: OrderCall) -> Option<usize>
    ensures { result ≡ position (equal call_code call) room.now }
{
    room.iter().position(|made| passes(*made, call))
}

/// Makes room for a call: a place for its label, and one for the label's tag.
pub(crate) fn ready(
    labels: &mut Vec<u64>,
    tags: &mut Vec<u64>,
    room: &mut Vec<OrderCall>,
    call: OrderCall,
) -> Result<(), NoMemory>
    requires labels { vec_len labels.old + vec_len room.old ≤ vec_capacity labels.old }
    requires tags { vec_len tags.old + vec_len room.old ≤ vec_capacity tags.old }
    ensures labels { labels.new.items ≡ labels.old.items }
    ensures tags { tags.new.items ≡ tags.old.items }
    ensures ok { OnOk result (room.new.items ≡ room.old.items ++ call ∷ []) }
    ensures err { OnErr result (room.new.items ≡ room.old.items) }
    ensures label_places { vec_len labels.new + vec_len room.new ≤ vec_capacity labels.new }
    ensures tag_places { vec_len tags.new + vec_len room.new ≤ vec_capacity tags.new }
{
    labels.reserve(room.len() + 1)?;
    tags.reserve(room.len() + 1)?;
    room.push(call)?;
    Ok(())
}

/// Uses up the room of a call. Where it has none, all room goes.
pub(crate) fn spend_room(room: &mut Vec<OrderCall>, call: OrderCall) -> bool
    ensures room { room.new.items ≡ spend call_code call room.old.items }
    ensures made { result ≡ is_made call_code call room.old.items }
    ensures less { IsTrue result → vec_len room.new + 1 ≡ vec_len room.old }
    ensures none { result ≡ false → vec_len room.new ≡ 0 }
{
    match room_place(room, call) {
        Some(place) => {
            let _ = take_room(room, place);
            true
        }
        None => {
            room.clear();
            false
        }
    }
}

/// Finds places for the label of a call and for its tag: those of the room that was made for it, or new ones.
pub(crate) fn take_places(
    labels: &mut Vec<u64>,
    tags: &mut Vec<u64>,
    room: &mut Vec<OrderCall>,
    call: OrderCall,
) -> Result<(), NoMemory>
    requires labels { vec_len labels.old + vec_len room.old ≤ vec_capacity labels.old }
    requires tags { vec_len tags.old + vec_len room.old ≤ vec_capacity tags.old }
    ensures labels { labels.new.items ≡ labels.old.items }
    ensures tags { tags.new.items ≡ tags.old.items }
    ensures room { room.new.items ≡ spend call_code call room.old.items }
    ensures ready { IsTrue (is_made call_code call room.old.items) → IsOk result }
    ensures label_place { OnOk result (vec_len labels.new + vec_len room.new + 1 ≤ vec_capacity labels.new) }
    ensures tag_place { OnOk result (vec_len tags.new + vec_len room.new + 1 ≤ vec_capacity tags.new) }
    ensures label_places { vec_len labels.new + vec_len room.new ≤ vec_capacity labels.new }
    ensures tag_places { vec_len tags.new + vec_len room.new ≤ vec_capacity tags.new }
{
    if spend_room(room, call) {
        return Ok(());
    }
    labels.reserve(1)?;
    tags.reserve(1)?;
    Ok(())
}
