// The whole-bus run for C and Rust, its answer in numbers; include/bilvakront.h says the same in C.
// It stands in a crate and an archive of its own, so that the run's large steps have one call site each and are compiled into its loop.
#![tactic(auto)]

ghost use Rattle.std.specs.Prelude.{◌≡◌};
ghost use Rattle.bus.specs.Run.{traced, wire_run};

#[unsafe(no_mangle)]
pub extern "C" fn bilvakront_bus_run(
    list: &[u8],
    marks: u8,
    memory: &mut [u8],
    states: &mut [u8],
    holds: &[u8],
    asked: u16,
    results: &mut [u8],
    trace: &mut [u8],
    ticks: &mut u64,
) -> u8
    ensures { traced (record { number = result; ticks = ticks.new }) memory.new states.new results.new trace.new
        ≡ wire_run list.now marks memory.old states.old holds.now asked results.old trace.old }
{
    match bus::run(list, marks, memory, states, holds, asked, results, trace) {
        Ok(told) => {
            *ticks = told as u64;
            0
        }
        Err(refusal) => {
            *ticks = 0;
            u8::from(refusal)
        }
    }
}
