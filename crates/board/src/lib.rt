// The board: which chips the marks name, where each one's memory and state stand in what is lent, and what the desk turns down of it.
#![tactic(auto)]

ghost use Rattle.std.specs.Prelude.{◌≡◌, ℕ, ◌+◌, ◌-◌, ◌*◌, ◌≤◌, ◌<◌, List, [], length, take};
ghost use Rattle.lent.specs.Areas.{over};
ghost use Rattle.lent.specs.Refusals.{refused_as};
ghost use Rattle.eeprom.specs.Stages.{sda_of};
ghost use Rattle.eeprom.specs.States.{word_at};
ghost use Rattle.board.specs.Marks.{chip_count, place_of, bodies};
ghost use Rattle.board.specs.Desk.{states_right, board_number};
ghost use Rattle.board.specs.Seats.{parted, size_of, is_deaf, is_bit, heard, seat_at, seats_from, seat_bytes, seat_row};

use eeprom::{Chip, MOST_BUSY, Stage, put_state, state_right, word_at};
use lent::{Refusal, all_within};
use lines::{Event, MOST_HELD, bit_at};
use store::{Model, Store};

// A chip in a run, with the tick from which it is no longer busy.
#[derive(Clone, Copy)]
pub struct Seat {
    pub chip: Chip,
    pub free: usize,
}

// The chips of a run, in place order: the first `count` seats.
#[derive(Clone, Copy)]
pub struct Chips {
    // Stays: there is no heap, and a board has eight straps; the count stands beside the array here and nowhere else. The kit's ArrayVec would put one more
    // library under the proved core for what this type says in a line.
    pub seats: [Seat; 8],
    pub count: usize,
    pub ghost few: { count ≤ 8 },
}

// The number of chips is the count of ones.
pub fn chip_count(marks: u8) -> usize
    ensures value { result ≡ chip_count marks }
    ensures few { result ≤ 8 }
{
    u8::count_ones(marks) as usize
}

// A chip's place is the count of ones below its bit.
#[tactic(auto, using(crate::proofs::Places::few_below))]
pub fn place_of(marks: u8, strap: u8) -> usize
    requires { strap ≤ 8 }
    ensures value { result ≡ place_of marks strap }
    ensures few { result ≤ strap }
{
    let below = marks as u32 % (1u32 << strap);
    u32::count_ones(below) as usize
}

impl Seat {
    // What an event of this tick makes of the chip and of its memory.
    pub fn hear(self, event: Event, tick: usize, asked: u16, mem: &mut [u8]) -> Seat
        requires { tick < 1099511627776 }
        ensures { parted result mem.new ≡ heard asked tick event (parted self mem.old) }
    {
        // A STOP that stores makes a chip busy from the tick after on: counted from the last data byte it would answer too early.
        let free = match event {
            Event::Stopped if self.chip.due() => tick + 1 + asked as usize,
            _ => self.free,
        };
        Seat {
            chip: self.chip.hear(self.free <= tick, event, mem),
            free,
        }
    }

    // The size of its memory.
    pub fn size(self) -> usize
        ensures value { result ≡ size_of self }
        ensures small { result ≤ 4096 }
    {
        self.chip.store.model.size() as usize
    }

    // What it drives on SDA.
    pub fn sda(self) -> bool
        ensures { result ≡ sda_of self.chip.stage }
    {
        self.chip.sda()
    }

    // A deaf chip hears no bit: it need not be touched.
    pub fn is_deaf(self) -> bool
        ensures { result ≡ is_deaf self.chip.stage }
    {
        matches!(self.chip.stage, Stage::Deaf)
    }

    // Its four state bytes, at a tick.
    fn put(self, tick: usize, state: &mut [u8])
        ensures { state.new ≡ over (seat_bytes tick self []) state.old }
    {
        let busy = self.free.saturating_sub(tick);
        put_state(state, self.chip.store.pointer, (busy % 65536) as u16);
    }
}

pub fn is_bit(event: Event) -> bool
    ensures { result ≡ is_bit event }
{
    matches!(event, Event::Bit(_))
}

// The pointer and the busy time of the chip at a strap.
// Stays: marks and states are a parameter each, here and below, as every entry is lent them.
fn state_at(marks: u8, states: &[u8], strap: u8) -> (u16, u16)
    requires { strap < 8 }
    ensures { result ≡ (word_at states.now (4 * place_of marks strap), word_at states.now (4 * place_of marks strap + 2)) }
{
    let place = place_of(marks, strap) as u8;
    (word_at(states, 4 * place), word_at(states, 4 * place + 2))
}

// The chip at a strap, before the first tick.
fn seat_at(marks: u8, states: &[u8], strap: u8) -> Seat
    requires { strap < 8 }
    ensures { result ≡ seat_at marks states.now strap }
{
    let (pointer, busy) = state_at(marks, states, strap);
    Seat {
        chip: Chip {
            stage: Stage::Deaf,
            store: Store::at_rest(80 + strap, Model::Large, pointer),
        },
        free: busy as usize,
    }
}

// The chips that the marks name, in place order, each at its place.
pub fn load(marks: u8, states: &[u8]) -> Chips
    ensures count { result.count ≡ chip_count marks }
    ensures seats { take (chip_count marks) result.seats ≡ seats_from marks states.now 8 0 }
{
    let mut seats = [seat_at(marks, states, 0); 8];
    for strap in 0..8 {
        if bit_at(strap, marks) {
            let place = place_of(marks, strap);
            seats[place] = seat_at(marks, states, strap);
        }
    }
    Chips {
        seats,
        count: chip_count(marks),
    }
}

impl Chips {
    // Their states, in place order.
    pub fn save(self, tick: usize, states: &mut [u8])
        requires { length states.old ≡ 4 * self.count }
        ensures { states.new ≡ seat_row tick self.count self.seats }
    {
        for i in 0..self.count {
            let a = i * 4;
            self.seats[i].put(tick, &mut states[a..a + 4]);
        }
    }
}

// Every state in range: a pointer past the memory or an endless busy time would make the chip another one.
fn states_right(marks: u8, states: &[u8]) -> bool
    ensures { (m : List ℕ) → result ≡ states_right (bodies marks m states.now) }
{
    for strap in 0..8 {
        if bit_at(strap, marks) {
            let (pointer, busy) = state_at(marks, states, strap);
            if !state_right(Model::Large, pointer, busy) {
                return false;
            }
        }
    }
    true
}

// Why the desk says no to a board: looked at in the order of the refusals.
pub fn check_board(
    marks: u8,
    memory: &[u8],
    states: &[u8],
    holds: &[u8],
    asked: u16,
) -> Result<(), Refusal>
    ensures { refused_as result ≡ board_number marks memory.now states.now holds.now asked }
{
    let count = chip_count(marks);
    let size = Model::Large.size() as usize;
    if memory.len() != size * count || states.len() != 4 * count {
        return Err(Refusal::LentLengths);
    }
    if !states_right(marks, states) {
        return Err(Refusal::StateOutOfRange);
    }
    if !all_within(MOST_HELD, holds) {
        return Err(Refusal::HoldTooLong);
    }
    if MOST_BUSY < asked {
        return Err(Refusal::BusyTooLong);
    }
    Ok(())
}
