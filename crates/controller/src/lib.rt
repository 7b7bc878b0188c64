// The controller: its way through an order list, and the tick in which it drives a symbol, sees the lines and notes a result.
#![tactic(auto)]

ghost use Rattle.std.specs.Prelude.{◌≡◌, ◌≤◌, length, Ok};
ghost use Rattle.symbols.specs.Symbols.{drives, is_over};
ghost use Rattle.symbols.specs.Ticks.{control_tick};
ghost use Rattle.cursor.specs.Cursor.{places};
ghost use Rattle.controller.specs.Inside.{control_of, first_of, ran_on};
ghost use Rattle.controller.specs.Alone.{end_of, end_told, told_of, alone};

use cursor::Cursor;
use lent::{Refusal, all_within, put_at};
use lines::Lines;
use symbols::{Fault, Phase};

#[derive(Clone, Copy)]
pub struct Controller {
    pub phase: Phase,
    // the SDA driven in the last phase 3
    pub was: bool,
    pub cursor: Cursor,
}

// How a run on a record ended.
#[derive(Clone, Copy, Debug, PartialEq, Eq)]
pub enum End {
    ListEnd,
    Faulted(Fault),
    RecordEnd,
}

#[derive(Clone, Copy, Debug, PartialEq, Eq)]
pub struct Told {
    pub end: End,
    pub ticks: usize,
}

impl Controller {
    // At the list's first transaction.
    pub fn first(list: &[u8]) -> Controller
        ensures { result ≡ first_of list.now }
    {
        let cursor = Cursor::opens_at(list, 0, 0);
        Controller {
            phase: cursor.enter(list),
            was: true,
            cursor,
        }
    }

    // What it drives, by its state alone.
    pub fn drive(self) -> Lines
        ensures { result ≡ drives self.phase self.was }
    {
        self.phase.drive(self.was)
    }

    pub fn is_over(self) -> bool
        ensures { result ≡ is_over self.phase }
    {
        self.phase.is_over()
    }

    // One tick, in which the lines are seen. Results are written in the tick that ends a ninth symbol or a STOP, and where a fault is seen: noted any
    // earlier, a byte whose ninth symbol then fails would count.
    pub fn tick(self, seen: Lines, list: &[u8], area: &mut [u8]) -> Controller
        ensures { control_of result area.new ≡ control_tick (places list.now) seen (control_of self area.old) }
    {
        if let Some(fault) = self.phase.fault(self.was, seen) {
            put_at(area, self.cursor.top as usize, u8::from(fault));
            return Controller {
                phase: Phase::Over(Some(fault)),
                was: true,
                cursor: Cursor::nowhere(),
            };
        }
        if self.phase.is_last() {
            self.cursor.note(list, seen.sda, area);
            let cursor = self.cursor.step(list, seen.sda);
            return Controller {
                phase: cursor.enter(list),
                was: self.drive().sda,
                cursor,
            };
        }
        Controller {
            phase: self.phase.after(self.was, seen),
            ..self
        }
    }
}

// How a run that stands here has ended: the record's end only if neither the list's end nor a fault holds.
fn end_of(phase: Phase) -> End
    ensures { end_told result ≡ end_of phase }
{
    match phase {
        Phase::Over(None) => End::ListEnd,
        Phase::Over(Some(fault)) => End::Faulted(fault),
        _ => End::RecordEnd,
    }
}

// Tick by tick along the record, to the list's end, a fault or the record's end.
fn run(list: &[u8], samples: &[u8], drives: &mut [u8], results: &mut [u8]) -> Told
    requires { length samples.now ≤ length drives.old }
    ensures { record { told = told_of (Ok result); drives = drives.new; results = results.new }
        ≡ ran_on list.now drives.old samples.now (control_of (first_of list.now) results.old) }
{
    let mut controller = Controller::first(list);
    // by the tick's number, which is told where the run ends
    for t in 0..samples.len() {
        if controller.is_over() {
            return Told {
                end: end_of(controller.phase),
                ticks: t,
            };
        }
        drives[t] = u8::from(controller.drive());
        controller = controller.tick(Lines::from(samples[t]), list, results);
    }
    Told {
        end: end_of(controller.phase),
        ticks: samples.len(),
    }
}

// The controller alone on a record of samples, a byte a tick. A refused call changes no lent byte.
pub fn alone(
    list: &[u8],
    samples: &[u8],
    drives: &mut [u8],
    results: &mut [u8],
) -> Result<Told, Refusal>
    ensures { record { told = told_of result; drives = drives.new; results = results.new }
        ≡ alone list.now samples.now drives.old results.old }
{
    let size = orders::check(list)?;
    if !all_within(3, samples) {
        return Err(Refusal::SampleOutOfRange);
    }
    if drives.len() < samples.len() {
        return Err(Refusal::DrivesTooShort);
    }
    if results.len() < size {
        return Err(Refusal::AreaTooSmall);
    }
    orders::start(list, size, results);
    Ok(run(list, samples, drives, results))
}
