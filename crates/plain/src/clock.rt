// Time without wires: ticks are counted a symbol at a time.
ghost use Rattle.std.specs.Prelude.{◌+◌, ◌*◌, ◌≤◌};
ghost use Rattle.plain.specs.Clock.{symbol, symbols, pass};
ghost use Rattle.plain.specs.Inside.{far, symbol_most, time_of, Passes};

use crate::Time;

impl Time {
    // A clocked symbol: four ticks and its held ones. Past the list's end none is held.
    pub fn symbol(self, holds: &[u8]) -> Time
        requires { self.now + symbol_most ≤ far }
        ensures { Passes holds.now (symbol (time_of self holds.now)) (self.now + symbol_most) result }
    {
        if self.next < holds.len() {
            Time {
                now: self.now + 4 + holds[self.next] as usize,
                next: self.next + 1,
            }
        } else {
            Time {
                now: self.now + 4,
                ..self
            }
        }
    }

    // So many of them.
    pub fn symbols(self, n: u8, holds: &[u8]) -> Time
        requires { self.now + symbol_most * n ≤ far }
        ensures { Passes holds.now (symbols n (time_of self holds.now)) (self.now + symbol_most * n) result }
    {
        let mut time = self;
        for _ in 0..n {
            time = time.symbol(holds);
        }
        time
    }

    // A wait, or the first START, which is not clocked.
    pub fn pass(self, n: usize, holds: &[u8]) -> Time
        requires { self.now + n ≤ far }
        ensures { Passes holds.now (pass n (time_of self holds.now)) (self.now + n) result }
    {
        Time {
            now: self.now + n,
            ..self
        }
    }
}
