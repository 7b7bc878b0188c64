// Going along an accepted list by places: sizes and rooms are the list's to say, and nothing here looks at a kind's number.
ghost use Rattle.std.specs.Prelude.{◌≡◌, ◌+◌, ◌≤◌};
ghost use Rattle.messages.specs.Along.{Within, beyond, opened, others, next_batch};

use crate::Place;
use lent::byte_at;
use orders::{room_at, size_at};

// The places after a message.
pub fn beyond(list: &[u8], place: Place) -> Place
    requires { Within place }
    ensures value { result ≡ beyond list.now place }
    ensures near { (place.at ≤ result.at) × (result.at ≤ place.at + 1024) × (result.slot ≤ place.slot + 1024) }
{
    let at = place.at as u32;
    Place {
        at: place.at + size_at(list, at),
        slot: place.slot + room_at(list, at),
    }
}

// The messages of a transaction after its first.
pub fn others(list: &[u8], place: Place) -> u8
    ensures { result ≡ others list.now place }
{
    byte_at(list, place.at).saturating_sub(1)
}

// Where the first message of a transaction stands.
pub fn opened(place: Place) -> Place
    requires { Within place }
    ensures { result ≡ opened place }
{
    Place {
        at: place.at + 3,
        slot: place.slot + 1,
    }
}

// The place of the next transaction: sent or not, the messages of this one are passed over.
pub fn next_batch(list: &[u8], place: Place) -> Place
    requires { (place.at ≤ 65536) × (place.slot ≤ 68719476736) }
    ensures value { result ≡ next_batch list.now place }
    ensures later { (place.at + 3 ≤ result.at) × (result.at ≤ place.at + 524288) × (result.slot ≤ place.slot + 524288) }
{
    let mut next = beyond(list, opened(place));
    for _ in 0..others(list, place) {
        next = beyond(list, next);
    }
    next
}
