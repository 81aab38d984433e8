// Room that is made in advance for calls that grow something, so that a change of several parts makes all its room first
// and then changes everything without memory.
//
// Contracts see room as the list of the calls for which it was made. A call for which there is room uses that room up and
// can't want memory; one for which there is none leaves no room at all.
ghost use Rattle.std.specs.Prelude.{◌≡◌, ◌<◌, ◌+◌, length, vec_len, slice_get};
ghost use Rattle.std.specs.List.{remove};

/// Takes the room of the call at this place.
pub fn take_room<C>(room: &mut Vec<C>, place: usize) -> C
    requires { place < vec_len room.old }
    ensures call { slice_get room.old.items place ≡ Some result }
    ensures room { room.new.items ≡ remove room.old.items place }
    ensures len { vec_len room.new + 1 ≡ vec_len room.old }
{
    room.remove(place)
}
