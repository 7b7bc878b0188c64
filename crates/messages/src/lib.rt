// An accepted list in the plain reading: where it stands, and how far it has come.
#![tactic(auto)]

mod course;
mod places;

use board::Chips;
use plain::Time;

// A place in the list, and the place in the result area that goes with it.
#[derive(Clone, Copy)]
pub struct Place {
    pub at: usize,
    pub slot: usize,
}

// A reading under way: the time, and the chips, whose memory is lent.
#[derive(Clone, Copy)]
pub struct Run {
    pub time: Time,
    pub chips: Chips,
}
