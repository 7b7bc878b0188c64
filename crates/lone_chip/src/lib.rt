// The entry "one chip alone": a chip with its eye and its busy time on a record of samples, and the refusals.
#![tactic(auto)]

ghost use Rattle.std.specs.Prelude.{◌≡◌, List, ℕ};
ghost use Rattle.lent.specs.Areas.{over};
ghost use Rattle.lent.specs.Refusals.{answer_of, refused_as};
ghost use Rattle.lines.specs.Levels.{hi, ◌∥◌};
ghost use Rattle.lines.specs.Records.{walk, drives_on};
ghost use Rattle.eeprom.specs.Stages.{sda_of};
ghost use Rattle.eeprom.specs.States.{body_at};
ghost use Rattle.lone_chip.specs.Alone.{watch_of, rest_of, chip, chip_number, left_by, chip_alone};

use eeprom::{Chip, MOST_BUSY, put_state, state_right, word_at};
use lent::{Refusal, all_within, put_at};
use lines::{Event, Eye, Lines};
use store::Model;

// A chip alone with the lines: what it saw last, and its busy ticks left.
#[derive(Clone, Copy)]
pub struct Watch {
    pub eye: Eye,
    pub chip: Chip,
    pub busy: u16,
}

impl Watch {
    // Before the first tick: lines 1,1 and not addressed.
    pub fn at_rest(name: u8, model: Model, pointer: u16, busy: u16) -> Watch
        ensures { (m : List ℕ) → watch_of result m ≡ rest_of (body_at name model pointer busy m) }
    {
        Watch {
            eye: Eye::opened(),
            chip: Chip::at_rest(name, model, pointer),
            busy,
        }
    }

    // It never drives SCL.
    pub fn drive(self) -> Lines
        ensures { result ≡ hi ∥ sda_of self.chip.stage }
    {
        Lines {
            scl: true,
            sda: self.chip.sda(),
        }
    }

    // One tick. An answer is decided before that tick's fall of the busy time. A quiet tick copies no chip.
    #[tactic(auto, unfolding(eeprom::specs::Stages::body_tick, eeprom::specs::Stages::hears))]
    pub fn tick(&mut self, asked: u16, seen: Lines, mem: &mut [u8])
        ensures { watch_of self.new mem.new ≡ (chip asked).tick seen (watch_of self.old mem.old) }
    {
        let event = self.eye.event(seen);
        let busy = self.chip.busy_after(asked, event, self.busy);
        if event != Event::Quiet {
            self.chip = self.chip.hear(self.busy == 0, event, mem);
        }
        self.eye = self.eye.after(seen);
        self.busy = busy;
    }

    // One sample after another, a drive byte a tick. It may go on from where it stands.
    pub fn runs(self, asked: u16, memory: &mut [u8], samples: &[u8], drives: &mut [u8]) -> Watch
        ensures state { watch_of result memory.new ≡ walk (chip asked) samples.now (watch_of self memory.old) }
        ensures drives { drives.new ≡ over (drives_on (chip asked) samples.now (watch_of self memory.old)) drives.old }
    {
        let mut watch = self;
        for (i, &sample) in samples.iter().enumerate() {
            put_at(drives, i, u8::from(watch.drive()));
            watch.tick(asked, Lines::from(sample), memory);
        }
        watch
    }
}

// Why the desk says no: looked at in the order 10, 3, 4, 6, 8, 9.
#[tactic(auto, unfolding(crate::specs::Alone::chip_number, eeprom::specs::States::most_busy))]
fn check_chip(
    strap: u8,
    memory: &[u8],
    state: &[u8],
    asked: u16,
    samples: &[u8],
    drives: &[u8],
) -> Result<(), Refusal>
    ensures { refused_as result ≡ chip_number strap memory.now state.now asked samples.now drives.now }
{
    let model = Model::Large;
    if 7 < strap {
        return Err(Refusal::NoSuchStrap);
    }
    if memory.len() != model.size() as usize || state.len() != 4 {
        return Err(Refusal::LentLengths);
    }
    if !state_right(model, word_at(state, 0), word_at(state, 2)) {
        return Err(Refusal::StateOutOfRange);
    }
    if MOST_BUSY < asked {
        return Err(Refusal::BusyTooLong);
    }
    if !all_within(3, samples) {
        return Err(Refusal::SampleOutOfRange);
    }
    if drives.len() < samples.len() {
        return Err(Refusal::DrivesTooShort);
    }
    Ok(())
}

// The entry "one chip alone": a chip on a record of samples, a byte a tick. A refusal changes no lent byte.
pub fn chip_alone(
    strap: u8,
    memory: &mut [u8],
    state: &mut [u8],
    asked: u16,
    samples: &[u8],
    drives: &mut [u8],
) -> Result<usize, Refusal>
    ensures { left_by (answer_of result) memory.new state.new drives.new ≡ chip_alone strap memory.old state.old asked samples.now drives.old }
{
    check_chip(strap, memory, state, asked, samples, drives)?;
    let first = Watch::at_rest(
        80 + strap,
        Model::Large,
        word_at(state, 0),
        word_at(state, 2),
    );
    let last = first.runs(asked, memory, samples, drives);
    put_state(state, last.chip.store.pointer, last.busy);
    Ok(samples.len())
}
