// The line faults, looked at in this order each tick: line broken, bus not free, clock stuck, undefined, data lost.
ghost use Rattle.std.specs.Prelude.{◌≡◌};
ghost use Rattle.symbols.specs.Faults.{is_broken, is_first, is_taken, is_stuck, is_bit, is_undefined, lets_go, is_stop, is_lost, fault_of, outcome_of};

use crate::{Begin, Fault, Phase, Symbol};
use lines::{Lines, MOST_HELD};

// A line driven 0 is seen 1.
fn is_broken(drive: Lines, seen: Lines) -> bool
    ensures { result ≡ is_broken drive seen }
{
    (!drive.scl && seen.scl) || (!drive.sda && seen.sda)
}

impl Symbol {
    fn is_first(self) -> bool
        ensures { result ≡ is_first self }
    {
        matches!(self, Symbol::Start(Begin::First))
    }

    fn is_bit(self) -> bool
        ensures { result ≡ is_bit self }
    {
        matches!(self, Symbol::Sent(_) | Symbol::Received)
    }

    // A sent 1 or a repeated START: SDA is let go, and has to rise.
    fn lets_go(self) -> bool
        ensures { result ≡ lets_go self }
    {
        matches!(self, Symbol::Sent(true) | Symbol::Start(Begin::Repeated))
    }

    fn is_stop(self) -> bool
        ensures { result ≡ is_stop self }
    {
        matches!(self, Symbol::Stop)
    }
}

// Phases 0 to 2 have an arm each, and SCL is asked for by an `if`: with `|` and `&&` the compiler asks for the phase more often, and each tick of a bus without
// chips takes longer.
impl Phase {
    // 4: phases 0 to 2 of the first START.
    fn is_taken(self, seen: Lines) -> bool
        ensures { result ≡ is_taken self seen }
    {
        match self {
            Phase::Zero(s) => s.is_first() && !(seen.scl && seen.sda),
            Phase::One(s) => s.is_first() && !(seen.scl && seen.sda),
            Phase::Two(s, _) => s.is_first() && !(seen.scl && seen.sda),
            _ => false,
        }
    }

    // 2: phase 2, SCL 0 and 16 ticks already held.
    #[tactic(auto, unfolding(lines::specs::Levels::most_held))]
    fn is_stuck(self, seen: Lines) -> bool
        ensures { result ≡ is_stuck self seen }
    {
        match self {
            Phase::Two(_, held) => if seen.scl { false } else { MOST_HELD <= held },
            _ => false,
        }
    }

    // 3: phase 3, SCL 0; or a bit whose SDA differs between phase 2's last tick and phase 3.
    fn is_undefined(self, seen: Lines) -> bool
        ensures { result ≡ is_undefined self seen }
    {
        match self {
            Phase::Three(symbol, was) => if seen.scl {
                symbol.is_bit() && was != seen.sda
            } else {
                true
            },
            _ => false,
        }
    }

    // 1: phase 2 with SCL 1 of a sent 1 or repeated START, or phase 3 of STOP, SDA 0. Not in a held tick: there SDA may still rise.
    fn is_lost(self, seen: Lines) -> bool
        ensures { result ≡ is_lost self seen }
    {
        match self {
            Phase::Two(symbol, _) => if seen.scl {
                symbol.lets_go() && !seen.sda
            } else {
                false
            },
            Phase::Three(symbol, _) => symbol.is_stop() && !seen.sda,
            _ => false,
        }
    }

    #[tactic(auto, unfolding(crate::specs::Faults::fault_of))]
    pub fn fault(self, was: bool, seen: Lines) -> Option<Fault>
        ensures { result ≡ fault_of self was seen }
    {
        if is_broken(self.drive(was), seen) {
            Some(Fault::LineBroken)
        } else if self.is_taken(seen) {
            Some(Fault::NotFree)
        } else if self.is_stuck(seen) {
            Some(Fault::ClockStuck)
        } else if self.is_undefined(seen) {
            Some(Fault::Undefined)
        } else if self.is_lost(seen) {
            Some(Fault::DataLost)
        } else {
            None
        }
    }
}

// The paper's number, an outcome.
impl From<Fault> for u8 {
    ghost from_gives = { λ f n. n ≡ outcome_of f };

    fn from(fault: Fault) -> u8 {
        match fault {
            Fault::DataLost => 1,
            Fault::ClockStuck => 2,
            Fault::Undefined => 3,
            Fault::NotFree => 4,
            Fault::LineBroken => 5,
        }
    }
}
