// The chips in a plain reading: which of them listen, what they do at a START, a byte and a STOP.
ghost use Rattle.std.specs.Prelude.{◌≡◌, List, [], map, ℕ, ◌<◌, ◌≤◌, Option, length, slice_index_or};
ghost use Rattle.store.specs.Keeping.{takes, steps, starts};
ghost use Rattle.store.specs.declared.Store.{Store};
ghost use Rattle.board.specs.Seats.{size_of, offset};
ghost use Rattle.board.specs.declared.Seat.{Seat};
ghost use Rattle.plain.specs.Plain.{listens, any_of, value_of, does, only, stores};
ghost use Rattle.plain.specs.Inside.{far, cell_at, cells_of, next_of, Becomes};

use crate::Call;
use board::{Chips, Seat};
use eeprom::Chip;
use store::Store;

// It has this address and is not busy at this tick: an answer from a busy chip would stand for bytes not yet stored.
fn listens(seat: Seat, call: Call) -> bool
    ensures { result ≡ listens call.address call.tick (cell_at seat []) }
{
    call.address == seat.chip.store.name && seat.free <= call.tick
}

// Each chip takes a step that gives its next store, or None where the chip stays as it is.
fn each<F: Fn(Seat) -> Option<Store>>(mut chips: Chips, step: F) -> Chips
    requires { F.IsAlwaysCallable step }
    ensures count { result.count ≡ chips.count }
    ensures steps { (i : ℕ) → i < chips.count → (d : Seat)
        → (r : Option Store) × F.post step (slice_index_or chips.seats i d) r × (slice_index_or result.seats i d ≡ next_of (slice_index_or chips.seats i d) r) }
{
    for i in 0..chips.count {
        if let Some(store) = step(chips.seats[i]) {
            chips.seats[i].chip.store = store;
        }
    }
    chips
}

// START: every chip drops its latch.
pub fn all_start(chips: Chips) -> Chips
    ensures { Becomes (does starts) chips result }
{
    each(chips, |seat| Some(seat.chip.store.starts()))
}

// A byte is written to the chips that listen.
pub fn all_take(chips: Chips, call: Call, byte: u8) -> Chips
    ensures { Becomes (only (listens call.address call.tick) (takes byte)) chips result }
{
    each(
        chips,
        |seat| listens(seat, call).then(|| seat.chip.store.takes(byte)),
    )
}

// The chips that listen have sent a byte.
pub fn all_send(chips: Chips, call: Call) -> Chips
    ensures { Becomes (only (listens call.address call.tick) steps) chips result }
{
    each(
        chips,
        |seat| listens(seat, call).then(|| seat.chip.store.steps()),
    )
}

// Does a chip answer to its address?
pub fn any_listens(chips: Chips, call: Call) -> bool
    ensures { (m : List ℕ) → result ≡ any_of (listens call.address call.tick) (cells_of chips.count chips.seats m) }
{
    chips.seats[..chips.count]
        .iter()
        .any(|seat| listens(*seat, call))
}

// The byte that the chip which listens sends.
pub fn value_of(chips: Chips, call: Call, memory: &[u8]) -> u8
    requires { offset chips.count chips.seats ≡ length memory.now }
    ensures { result ≡ value_of (listens call.address call.tick) (cells_of chips.count chips.seats memory.now) }
{
    let mut a = 0;
    for i in 0..chips.count {
        let seat = chips.seats[i];
        let e = a + seat.size();
        if listens(seat, call) {
            return seat.chip.store.byte_now(&memory[a..e]);
        }
        a = e;
    }
    255
}

// A STOP that stores makes a chip busy for the asked time from this tick on: counted from the last data byte it would answer too early.
// Stays: tick and asked time are a parameter each; together they are nothing that the rules name.
fn stopped(seat: Seat, tick: usize, asked: u16, mem: &mut [u8]) -> Seat
    requires { tick ≤ far }
    ensures cell { cell_at result mem.new ≡ stores asked tick (cell_at seat mem.old) }
    ensures size { size_of result ≡ size_of seat }
{
    let due = seat.chip.store.latched;
    Seat {
        chip: Chip {
            store: seat.chip.store.stops(due, mem),
            ..seat.chip
        },
        free: if due {
            tick + asked as usize
        } else {
            seat.free
        },
    }
}

// STOP, in the chips and their parts of the memory.
pub fn all_stop(mut chips: Chips, tick: usize, asked: u16, memory: &mut [u8]) -> Chips
    requires { (tick ≤ far) × (offset chips.count chips.seats ≡ length memory.old) }
    ensures cells { cells_of result.count result.seats memory.new ≡ map (stores asked tick) (cells_of chips.count chips.seats memory.old) }
    ensures count { result.count ≡ chips.count }
    ensures fits { offset result.count result.seats ≡ length memory.new }
{
    let mut a = 0;
    for i in 0..chips.count {
        let seat = chips.seats[i];
        let e = a + seat.size();
        chips.seats[i] = stopped(seat, tick, asked, &mut memory[a..e]);
        a = e;
    }
    chips
}
