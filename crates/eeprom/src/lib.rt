// The EEPROM on the wires: what it makes of an event and what it drives (hearing), and the bytes of its state (states). What it keeps is a store's.
#![tactic(auto)]

mod hearing;
mod states;

pub use states::{put_state, state_right, word_at};
use store::Store;

// The busy ticks that may be asked for or be left.
pub const MOST_BUSY: u16 = 20000;

// Where a chip stands in a byte. Bits are counted down: so many come after the next.
#[derive(Clone, Copy, Debug, PartialEq, Eq)]
pub enum Stage {
    // silent until START
    Deaf,
    // bits to come, the value so far
    Naming(u8, u8),
    // acknowledging its address; does it send then?
    Named(bool),
    Taking(u8, u8),
    // acknowledging a written byte
    Taken,
    // bits to come, the byte
    Sending(u8, u8),
    // waiting for the ninth bit of a byte sent
    Asking,
}

// A chip but for its memory, which is lent, and its busy time.
#[derive(Clone, Copy)]
pub struct Chip {
    pub stage: Stage,
    pub store: Store,
}
