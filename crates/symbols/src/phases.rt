// The table of symbols: what the controller drives in each phase, and the phase after it.
ghost use Rattle.std.specs.Prelude.{◌≡◌, None};
ghost use Rattle.symbols.specs.Symbols.{four, row, drives, is_over};
ghost use Rattle.symbols.specs.Faults.{fault_of};
ghost use Rattle.symbols.specs.Moves.{phase_after, is_last};

use crate::{Begin, Phase, Row, Symbol};
use lines::Lines;

fn pair(scl: bool, sda: bool) -> Lines
    ensures { result ≡ record { scl = scl; sda = sda } }
{
    Lines { scl, sda }
}

fn four(zero: Lines, one: Lines, two: Lines, three: Lines) -> Row
    ensures { result ≡ four zero one two three }
{
    Row {
        zero,
        one,
        two,
        three,
    }
}

impl Symbol {
    // p is the SDA that was driven in the last phase 3, not the one seen: a chip that holds SDA would else be taken for the controller.
    fn row(self, p: bool) -> Row
        ensures { result ≡ row self p }
    {
        let free = Lines::released();
        let before = pair(false, p);
        match self {
            Symbol::Start(Begin::First) => four(free, free, free, pair(true, false)),
            Symbol::Start(Begin::Repeated) => four(
                before,
                pair(false, true),
                free,
                pair(true, false),
            ),
            Symbol::Sent(b) => four(before, pair(false, b), pair(true, b), pair(true, b)),
            Symbol::Received => four(before, pair(false, true), free, free),
            Symbol::Stop => four(before, pair(false, false), pair(true, false), free),
        }
    }
}

impl Phase {
    // In a wait and at its end it drives 1,1.
    pub fn drive(self, was: bool) -> Lines
        ensures { result ≡ drives self was }
    {
        match self {
            Phase::Over(_) | Phase::Waiting(_) => Lines::released(),
            Phase::Zero(symbol) => symbol.row(was).zero,
            Phase::One(symbol) => symbol.row(was).one,
            Phase::Two(symbol, _) => symbol.row(was).two,
            Phase::Three(symbol, _) => symbol.row(was).three,
        }
    }

    pub fn is_over(self) -> bool
        ensures { result ≡ is_over self }
    {
        matches!(self, Phase::Over(_))
    }

    // Its symbol ends with this tick. Not in phase 2: a result noted there would stand although phase 3 may fail.
    pub fn is_last(self) -> bool
        ensures { result ≡ is_last self }
    {
        matches!(self, Phase::Three(_, _))
    }

    // The phase after a tick without a fault, inside a symbol or a wait. If SCL is seen 0 in phase 2, phase 2 is repeated: a held tick.
    #[tactic(auto, using(crate::proofs::Moves::room_to_hold))]
    pub fn after(self, was: bool, seen: Lines) -> Phase
        requires { fault_of self was seen ≡ None }
        ensures { result ≡ phase_after self seen }
    {
        match self {
            Phase::Over(_) | Phase::Three(_, _) => self,
            Phase::Waiting(0) => Phase::Zero(Symbol::Start(Begin::First)),
            Phase::Waiting(n) => Phase::Waiting(n - 1),
            Phase::Zero(symbol) => Phase::One(symbol),
            Phase::One(symbol) => Phase::Two(symbol, 0),
            Phase::Two(symbol, held) => if seen.scl {
                Phase::Three(symbol, seen.sda)
            } else {
                Phase::Two(symbol, held + 1)
            },
        }
    }
}
