// The symbols of the bus: the levels that a controller drives for each, its phases, and the faults that it can see in them.
#![tactic(auto)]

mod faults;
mod phases;

use lines::Lines;

// A START is the first of its transaction, or a repeated one.
#[derive(Clone, Copy, Debug, PartialEq, Eq)]
pub enum Begin {
    First,
    Repeated,
}

#[derive(Clone, Copy, Debug, PartialEq, Eq)]
pub enum Symbol {
    Start(Begin),
    Stop,
    Sent(bool),
    Received,
}

// The levels that a symbol has in its four phases.
#[derive(Clone, Copy)]
pub struct Row {
    pub zero: Lines,
    pub one: Lines,
    pub two: Lines,
    pub three: Lines,
}

// What a line fault is called.
#[derive(Clone, Copy, Debug, PartialEq, Eq)]
pub enum Fault {
    DataLost,
    ClockStuck,
    Undefined,
    NotFree,
    LineBroken,
}

// A phase is one case with its symbol inside it, so that a received bit can't be met in the middle of a STOP.
#[derive(Clone, Copy, Debug, PartialEq, Eq)]
pub enum Phase {
    // at the end, by a fault or without one
    Over(Option<Fault>),
    // the ticks of the wait that follow this one; four bytes, or it would share bytes with a symbol and slow every tick
    Waiting(u32),
    Zero(Symbol),
    One(Symbol),
    // the ticks already held
    Two(Symbol, u8),
    // the SDA seen in the last tick of phase 2
    Three(Symbol, bool),
}
