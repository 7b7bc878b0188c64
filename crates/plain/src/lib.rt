// The plain reading's time and chips: ticks counted a symbol at a time, and what chips do at a START, a byte and a STOP, without wires.
#![tactic(auto)]

mod chips;
mod clock;

pub use chips::{all_send, all_start, all_stop, all_take, any_listens, value_of};

// The ticks gone by, and the place in the hold list of the next clocked symbol.
#[derive(Clone, Copy)]
pub struct Time {
    pub now: usize,
    pub next: usize,
}

// An address, and the tick at which the eighth bit of its byte is delivered: it is decided then who listens.
#[derive(Clone, Copy)]
pub struct Call {
    pub address: u8,
    pub tick: usize,
}
