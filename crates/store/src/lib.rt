// What a chip keeps from byte to byte, its memory apart, which is lent: its pointer, its latch, and the model that says how both go round.
#![tactic(auto)]

mod keeping;

// The parts that there are. What tells one from another stands in specs/Pages.antt.
#[derive(Clone, Copy, Debug, PartialEq, Eq)]
pub enum Model {
    Large,
}

// What a chip keeps from byte to byte, its memory apart, which is lent.
#[derive(Clone, Copy)]
pub struct Store {
    pub name: u8,
    pub model: Model,
    pub pointer: u16,
    // pointer bytes still to come in this message
    pub want: u8,
    // the one that came. Stays: specs/Keeping.takes_at counts down `want`, by Pages.Geometry.lead bytes, and keeps this one beside it
    pub high: u8,
    // whether a byte is latched. Stays: eeprom/specs/Stages.due and plain/specs/Plain.stores read it, and not the latch
    pub latched: bool,
    // by place in the page
    pub latch: [Option<u8>; 32],
}
