// What a chip makes of an event, what it drives on SDA, and its busy time.
ghost use Rattle.std.specs.Prelude.{◌≡◌, ◌&&◌, List, ℕ, ◌-◌, ◌/◌, eqb};
ghost use Rattle.store.specs.Keeping.{kept_of, stepped};
ghost use Rattle.eeprom.specs.Stages.{Core, core_of, at, named, answered, bit_to, due, hears, sda_of, busy_after};
ghost use Rattle.eeprom.specs.States.{body_at};

use crate::{Chip, Stage};
use lines::{Event, bit_at, one_less, shifted};
use store::{Model, Store};

impl Stage {
    // What is driven on SDA. Stays: it is a table of levels, and one stage's is a bit of its byte.
    #[tactic(auto, unfolding(crate::specs::Stages::sda_of))]
    fn sda(self) -> bool
        ensures { result ≡ sda_of self }
    {
        match self {
            Stage::Deaf | Stage::Naming(_, _) | Stage::Taking(_, _) | Stage::Asking => true,
            Stage::Named(_) | Stage::Taken => false,
            Stage::Sending(left, byte) => bit_at(left, byte),
        }
    }
}

// The stage after an address byte: a chip that is busy stays silent, for an answer from it would stand for bytes not yet stored.
fn named(name: u8, free: bool, byte: u8) -> Stage
    ensures { (c : Core) → at result c ≡ named (eqb (byte / 2) name && free) byte c }
{
    if byte / 2 == name && free {
        Stage::Named(byte % 2 == 1)
    } else {
        Stage::Deaf
    }
}

impl Chip {
    // Before the first tick: not addressed.
    pub fn at_rest(name: u8, model: Model, pointer: u16) -> Chip
        ensures { (m : List ℕ) → core_of result m ≡ (body_at name model pointer 0 m).core }
    {
        Chip {
            stage: Stage::Deaf,
            store: Store::at_rest(name, model, pointer),
        }
    }

    // What it drives on SDA. It never drives SCL.
    pub fn sda(self) -> bool
        ensures { result ≡ sda_of self.stage }
    {
        self.stage.sda()
    }

    // Does a STOP store?
    #[tactic(auto, unfolding(crate::specs::Stages::due))]
    pub fn due(self) -> bool
        ensures { (m : List ℕ) → result ≡ due (core_of self m) }
    {
        self.store.latched
    }

    // What it keeps stays.
    fn at(self, stage: Stage) -> Chip
        ensures { result ≡ record { stage = stage; store = self.store } }
    {
        Chip { stage, ..self }
    }

    // The ninth bit of a byte that it sent. After a 1 it lets go of SDA: a chip that sent on could hold SDA, and no STOP could form.
    fn answered(self, bit: bool, mem: &[u8]) -> Chip
        ensures { core_of result mem.now ≡ answered bit (kept_of (stepped self.store) mem.now) }
    {
        let store = self.store.steps();
        let stage = if bit {
            Stage::Deaf
        } else {
            Stage::Sending(7, store.byte_now(mem))
        };
        Chip { stage, store }
    }

    // A bit is delivered to a chip that is free, its busy time 0, or not.
    #[tactic(auto, unfolding(store::specs::Keeping::takes, store::specs::Keeping::steps))]
    fn bit(self, free: bool, bit: bool, mem: &[u8]) -> Chip
        ensures { core_of result mem.now ≡ bit_to self.stage free bit (core_of self mem.now) }
    {
        match self.stage {
            Stage::Deaf => self,
            Stage::Naming(0, x) => self.at(named(self.store.name, free, shifted(x, bit))),
            Stage::Naming(left, x) => self.at(Stage::Naming(left - 1, shifted(x, bit))),
            Stage::Named(true) => self.at(Stage::Sending(7, self.store.byte_now(mem))),
            Stage::Named(false) | Stage::Taken => self.at(Stage::Taking(7, 0)),
            Stage::Taking(0, x) => Chip {
                stage: Stage::Taken,
                store: self.store.takes(shifted(x, bit)),
            },
            Stage::Taking(left, x) => self.at(Stage::Taking(left - 1, shifted(x, bit))),
            Stage::Sending(0, _) => self.at(Stage::Asking),
            Stage::Sending(left, x) => self.at(Stage::Sending(left - 1, x)),
            Stage::Asking => self.answered(bit, mem),
        }
    }

    // What it makes of an event. START and STOP always count and let go of SDA.
    #[tactic(auto, unfolding(crate::specs::Stages::hears, store::specs::Keeping::starts))]
    pub fn hear(self, free: bool, event: Event, mem: &mut [u8]) -> Chip
        ensures { core_of result mem.new ≡ hears free event (core_of self mem.old) }
    {
        match event {
            Event::Quiet => self,
            Event::Started => Chip {
                stage: Stage::Naming(7, 0),
                store: self.store.starts(),
            },
            Event::Stopped => Chip {
                stage: Stage::Deaf,
                store: self.store.stops(self.due(), mem),
            },
            Event::Bit(bit) => self.bit(free, bit, mem),
        }
    }

    // The busy ticks left after a tick: counted from the STOP that stores, not from the last data byte.
    pub fn busy_after(self, asked: u16, event: Event, busy: u16) -> u16
        ensures { (m : List ℕ) → result ≡ busy_after asked event (core_of self m) busy }
    {
        match event {
            Event::Stopped if self.due() => asked,
            _ => one_less(busy),
        }
    }
}
