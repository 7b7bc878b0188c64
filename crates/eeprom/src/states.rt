// The four bytes of a chip's state.
ghost use Rattle.std.specs.Prelude.{◌≡◌, ◌&&◌, [], ltb, leb};
ghost use Rattle.lent.specs.Areas.{over};
ghost use Rattle.store.specs.Pages.{geometry_of};
ghost use Rattle.eeprom.specs.States.{most_busy, word_at, word_bytes};

use crate::MOST_BUSY;
use lent::{byte_at, put_at};
use store::Model;

// The number in two bytes, low byte first.
pub fn word_at(s: &[u8], at: u8) -> u16
    ensures { result ≡ word_at s.now at }
{
    let at = at as usize;
    u16::from_le_bytes([byte_at(s, at), byte_at(s, at + 1)])
}

// The four bytes of a chip's state.
pub fn put_state(state: &mut [u8], pointer: u16, busy: u16)
    ensures { state.new ≡ over (word_bytes pointer (word_bytes busy [])) state.old }
{
    let [low, high] = pointer.to_le_bytes();
    put_at(state, 0, low);
    put_at(state, 1, high);
    let [low, high] = busy.to_le_bytes();
    put_at(state, 2, low);
    put_at(state, 3, high);
}

// The pointer inside the chip, the busy time within its bound.
#[tactic(auto, unfolding(crate::specs::States::most_busy))]
pub fn state_right(model: Model, pointer: u16, busy: u16) -> bool
    ensures { result ≡ (ltb pointer (geometry_of model).size && leb busy most_busy) }
{
    pointer < model.size() && busy <= MOST_BUSY
}
