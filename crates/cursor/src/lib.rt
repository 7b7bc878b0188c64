// The cursor: where the controller stands in the byte list and in the result area, and what each symbol there is for.
#![tactic(auto)]

mod places;

use kinds::Quota;

// What the symbol under way is for.
#[derive(Clone, Copy)]
pub enum Act {
    // the first START, after a wait
    Opens(u32),
    Reopens,
    Closes,
    Finishes,
    // bits of the address byte to come after this one
    Addresses(u8),
    // the ninth symbol of the address byte
    Hears,
    // bits of a data byte to come after this one
    Puts(u8),
    // its ninth symbol
    Awaits,
    // bits to come after this one, the value so far, and how many bytes are still asked for
    Gets(u8, u8, Quota),
    // the ninth symbol of a byte read
    Answers(u8, Quota),
}

// Where the controller stands in the list and in the result area.
#[derive(Clone, Copy)]
pub struct Cursor {
    pub act: Act,
    // the message's first byte
    pub at: u32,
    // messages after it in its transaction
    pub left: u8,
    // its flag's place in the result area
    pub slot: u32,
    // its transaction's outcome's place there
    pub top: u32,
    // data bytes of it that came before this one
    pub count: u8,
    // data bytes that a write has after this one
    pub more: u8,
}
