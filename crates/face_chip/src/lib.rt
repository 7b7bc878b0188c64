// One chip alone for C and Rust, its answer in numbers; include/bilvakront.h says the same in C.
// It stands in a crate and an archive of its own, so that the run's large steps have one call site each and are compiled into its loop.
#![tactic(auto)]

ghost use Rattle.std.specs.Prelude.{◌≡◌};
ghost use Rattle.lone_chip.specs.Alone.{left_by, chip_alone};

#[unsafe(no_mangle)]
pub extern "C" fn bilvakront_chip_alone(
    strap: u8,
    memory: &mut [u8],
    state: &mut [u8],
    asked: u16,
    samples: &[u8],
    drives: &mut [u8],
    ticks: &mut u64,
) -> u8
    ensures { left_by (record { number = result; ticks = ticks.new }) memory.new state.new drives.new
        ≡ chip_alone strap memory.old state.old asked samples.now drives.old }
{
    let (number, seen) = match lone_chip::chip_alone(strap, memory, state, asked, samples, drives) {
        Ok(seen) => (0, seen),
        Err(refusal) => (u8::from(refusal), 0),
    };
    *ticks = seen as u64;
    number
}
