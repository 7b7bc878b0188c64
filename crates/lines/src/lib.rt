// The two wires: their levels in a tick, the byte that stands for them, and what two neighbouring ticks of them say.
#![tactic(auto)]

ghost use Rattle.std.specs.Prelude.{◌≡◌, ◌-◌};
ghost use Rattle.lines.specs.Levels.{released, bit_at, shifted, byte_of, lines_of};
ghost use Rattle.lines.specs.Events.{delivered, note, event_of, eye_after, opened, is_quiet};

// The most ticks for which SCL may be held low in a symbol.
pub const MOST_HELD: u8 = 16;

// The levels of the clock and of the data line in one tick.
#[derive(Clone, Copy, Debug, PartialEq, Eq)]
pub struct Lines {
    pub scl: bool,
    pub sda: bool,
}

// All that a party has to remember of the ticks before: their last lines, and the SDA that was noted when SCL rose. START and STOP take it away: a STOP's own
// high time would else deliver a false bit.
#[derive(Clone, Copy, Debug, PartialEq, Eq)]
pub struct Eye {
    pub past: Lines,
    pub noted: Option<bool>,
}

// What is heard in a tick. A bit is heard when SCL falls, never when it rises.
#[derive(Clone, Copy, Debug, PartialEq, Eq)]
pub enum Event {
    Quiet,
    Started,
    Stopped,
    Bit(bool),
}

impl Lines {
    pub fn released() -> Lines
        ensures { result ≡ released }
    {
        Lines {
            scl: true,
            sda: true,
        }
    }
}

// SCL in bit 0, SDA in bit 1.
impl From<Lines> for u8 {
    ghost from_gives = { λ l x. x ≡ byte_of l };

    fn from(lines: Lines) -> u8 {
        u8::from(lines.scl) + 2 * u8::from(lines.sda)
    }
}

impl From<u8> for Lines {
    ghost from_gives = { λ x l. l ≡ lines_of x };

    fn from(x: u8) -> Lines {
        Lines {
            scl: bit_at(0, x),
            sda: bit_at(1, x),
        }
    }
}

// Bit i of a byte.
#[tactic(auto, using(crate::proofs::Laws::no_ninth), unfolding(crate::specs::Levels::bit_at))]
pub fn bit_at(i: u8, x: u8) -> bool
    ensures { result ≡ bit_at i x }
{
    i < 8 && (x >> i) % 2 == 1
}

// A byte's register with one bit more.
pub fn shifted(x: u8, bit: bool) -> u8
    ensures { result ≡ shifted x bit }
{
    x % 128 * 2 + u8::from(bit)
}

fn delivered(noted: Option<bool>) -> Event
    ensures { result ≡ delivered noted }
{
    noted.map_or(Event::Quiet, Event::Bit)
}

impl Event {
    pub fn is_quiet(self) -> bool
        ensures { result ≡ is_quiet self }
    {
        self == Event::Quiet
    }
}

// What is noted after a tick.
fn noted_after(past: Lines, seen: Lines, noted: Option<bool>) -> Option<bool>
    ensures { result ≡ note past.scl seen.scl past.sda seen.sda noted }
{
    if past.scl {
        if seen.scl {
            if past.sda {
                if seen.sda { noted } else { None }
            } else {
                if seen.sda { None } else { noted }
            }
        } else {
            None
        }
    } else {
        if seen.scl { Some(seen.sda) } else { noted }
    }
}

impl Eye {
    // Before the first tick.
    pub fn opened() -> Eye
        ensures { result ≡ opened }
    {
        Eye {
            past: Lines::released(),
            noted: None,
        }
    }

    // What is heard when these lines are seen.
    pub fn event(self, seen: Lines) -> Event
        ensures { result ≡ event_of self seen }
    {
        let past = self.past;
        if past.scl {
            if seen.scl {
                if past.sda {
                    if seen.sda {
                        Event::Quiet
                    } else {
                        Event::Started
                    }
                } else {
                    if seen.sda {
                        Event::Stopped
                    } else {
                        Event::Quiet
                    }
                }
            } else {
                delivered(self.noted)
            }
        } else {
            Event::Quiet // at a rise nothing is heard yet
        }
    }

    pub fn after(self, seen: Lines) -> Eye
        ensures { result ≡ eye_after self seen }
    {
        Eye {
            past: seen,
            noted: noted_after(self.past, seen, self.noted),
        }
    }
}

// One tick less of a time that is counted down, and 0 of 0.
// Stays: its twin for a byte is the library's method; must-fail/a_time_counted_down_past_0 is refused by this one's contract.
pub fn one_less(n: u16) -> u16
    ensures { result ≡ n - 1 }
{
    n.saturating_sub(1)
}
