// The two wires with all that hangs on them: one controller, the chips, one clock holder. An event is found once a tick, and the chips are touched only
// where there is one.
#![tactic(auto)]

ghost use Rattle.std.specs.Prelude.{◌≡◌, ◌+◌, ◌-◌, ◌<◌, ◌≤◌, length, map};
ghost use Rattle.board.specs.Seats.{seated, offset, heard, all_up};
ghost use Rattle.wires.specs.Holding.{hold_tick};
ghost use Rattle.wires.specs.Inside.{holding_of, bus_lines, BusSees, phase_rest, rest_of, rested_of, filled, bus_on, Went};

use board::{Chips, Seat, is_bit};
use controller::Controller;
use lent::put_at;
use lines::{Event, Eye, Lines};
use symbols::{Begin, Phase, Symbol};

// No run gets there: the list's own bound is far below.
const LIMIT: usize = 1099511627776;

// The clock holder: the ticks for which it still drives SCL low, and the next place in the hold list.
#[derive(Clone, Copy)]
pub struct Holder {
    pub left: u16,
    pub next: usize,
}

impl Holder {
    // A clocked symbol begins where SCL falls, every one of them: a list that passed STOPs over would hold the wrong symbols.
    fn tick(self, past: bool, seen: bool, holds: &[u8]) -> Holder
        ensures { holding_of result holds.now ≡ hold_tick past seen (holding_of self holds.now) }
    {
        if past {
            if seen {
                Holder {
                    left: self.left.saturating_sub(1),
                    ..self
                }
            } else {
                match holds.get(self.next) {
                    Some(&hold) => Holder {
                        left: 1 + u16::from(hold),
                        next: self.next + 1,
                    },
                    None => Holder { left: 1, ..self },
                }
            }
        } else {
            Holder {
                left: self.left.saturating_sub(1),
                ..self
            }
        }
    }
}

// All parties but the chips; `up` is the SDA that the chips leave.
#[derive(Clone, Copy)]
pub struct Bus {
    pub control: Controller,
    pub hold: Holder,
    pub eye: Eye,
    pub up: bool,
}

// The ticks that a wait still takes, 0 outside of one.
fn wait_left(phase: Phase) -> usize
    ensures { result ≡ phase_rest phase }
{
    match phase {
        Phase::Waiting(n) => n as usize + 1,
        _ => 0,
    }
}

impl Bus {
    // The lines of this tick: 0 if any party drives 0.
    fn lines(self) -> Lines
        ensures { result ≡ bus_lines self }
    {
        let drive = self.control.drive();
        Lines {
            scl: drive.scl & (self.hold.left == 0),
            sda: drive.sda & self.up,
        }
    }

    // All but the chips see the lines. The holder and the eye go first: after the controller's step, each tick of a bus without chips takes longer.
    fn tick(self, seen: Lines, list: &[u8], holds: &[u8], area: &mut [u8]) -> Bus
        ensures sees { BusSees list.now holds.now seen self area.old result area.new }
        ensures up { result.up ≡ self.up }
    {
        let control = self.control;
        let hold = self.hold;
        let eye = self.eye;
        let held = hold.tick(eye.past.scl, seen.scl, holds);
        let after = eye.after(seen);
        let next = control.tick(seen, list, area);
        Bus {
            control: next,
            hold: held,
            eye: after,
            up: self.up,
        }
    }

    // The ticks that can be passed at once: what is left of a wait in which both lines are up and were.
    fn calm(self) -> usize
        ensures { result ≡ rest_of self }
    {
        let past = self.eye.past;
        if self.up && self.hold.left == 0 && past.scl && past.sda {
            wait_left(self.control.phase)
        } else {
            0
        }
    }

    // After them.
    fn rested(self) -> Bus
        ensures { result ≡ rested_of self }
    {
        Bus {
            control: Controller {
                phase: Phase::Zero(Symbol::Start(Begin::First)),
                ..self.control
            },
            ..self
        }
    }
}

// Both lines up in the trace of `count` ticks.
fn fill(trace: &mut [u8], from: usize, count: usize)
    requires { (from < 1099511627777) × (count < 1099511627777) }
    ensures { trace.new ≡ filled count from trace.old }
{
    for i in from..from + count {
        put_at(trace, i, 3);
    }
}

// The chips hear an event, each with its part of the memory; what they leave of SDA. A deaf one hears no bit, and is not touched.
fn hear_all(seats: &mut [Seat], event: Event, tick: usize, asked: u16, memory: &mut [u8]) -> bool
    requires { (tick < 1099511627776) × (length seats.old ≤ 8) × (length memory.old ≡ offset (length seats.old) seats.old) }
    ensures heard { seated (length seats.old) seats.new memory.new
        ≡ map (heard asked tick event) (seated (length seats.old) seats.old memory.old) }
    ensures up { result ≡ all_up (seated (length seats.old) seats.new memory.new) }
    ensures fits { length memory.new ≡ offset (length seats.old) seats.new }
{
    let bit = is_bit(event);
    let mut up = true;
    let mut begin = 0;
    for seat in seats.iter_mut() {
        let end = begin + seat.size();
        if !(bit && seat.is_deaf()) {
            *seat = seat.hear(event, tick, asked, &mut memory[begin..end]);
            up &= seat.sda();
        }
        begin = end;
    }
    up
}

// The run's end, its ticks, and the chips.
#[derive(Clone, Copy)]
pub struct Ran {
    pub bus: Bus,
    pub ticks: usize,
    pub chips: Chips,
}

// Ticks until the controller is over. The chips hear an event once it is found; a wait is passed at once.
pub fn goes(
    start: Bus,
    at: Chips,
    asked: u16,
    list: &[u8],
    holds: &[u8],
    memory: &mut [u8],
    area: &mut [u8],
    trace: &mut [u8],
) -> Ran
    requires { (length memory.old ≡ offset at.count at.seats) × (start.up ≡ all_up (seated at.count at.seats memory.old)) }
    ensures went { Went list.now asked
        (bus_on holds.now start (seated at.count at.seats memory.old) area.old 0) trace.old
        (bus_on holds.now result.bus (seated at.count result.chips.seats memory.new) area.new result.ticks) result.ticks trace.new }
    ensures count { result.chips.count ≡ at.count }
    ensures fits { length memory.new ≡ offset at.count result.chips.seats }
{
    let mut bus = start;
    let Chips { mut seats, count } = at;
    let mut t = 0;
    // Stays: a turn goes over one tick or a whole wait, and a `for` goes on by one.
    while t < LIMIT && !bus.control.is_over() {
        let rest = bus.calm();
        if 0 < rest && rest <= LIMIT - t {
            fill(trace, t, rest);
            bus = bus.rested();
            t += rest;
            continue;
        }
        let seen = bus.lines();
        let event = bus.eye.event(seen);
        put_at(trace, t, u8::from(seen));
        bus = bus.tick(seen, list, holds, area);
        if !event.is_quiet() {
            bus.up = hear_all(&mut seats[..count], event, t, asked, memory);
        }
        t += 1;
    }
    Ran {
        bus,
        ticks: t,
        chips: Chips { seats, count },
    }
}
