// The controller alone for C and Rust, its answer in numbers; include/bilvakront.h says the same in C.
// It stands in a crate and an archive of its own, so that the run's large steps have one call site each and are compiled into its loop.
#![tactic(auto)]

ghost use Rattle.std.specs.Prelude.{◌≡◌};
ghost use Rattle.controller.specs.Alone.{alone, end_told};
ghost use Rattle.face_controller.specs.Ends.{end_number, told_as, numbered};

use controller::End;

// How a run on a record ended, as a number: 0 the list's end, 1 to 5 a fault, 6 the record's end; 7 is for a call that was refused.
// Stays: the numbers of an end are the C interface's, not the controller's, and here neither End nor u8 is our own for an impl From.
fn end_number(end: End) -> u8
    ensures { result ≡ end_number (end_told end) }
{
    match end {
        End::ListEnd => 0,
        End::Faulted(fault) => u8::from(fault),
        End::RecordEnd => 6,
    }
}

#[unsafe(no_mangle)]
pub extern "C" fn bilvakront_controller_alone(
    list: &[u8],
    samples: &[u8],
    drives: &mut [u8],
    results: &mut [u8],
    end: &mut u8,
    ticks: &mut u64,
) -> u8
    ensures { told_as result end.new ticks.new drives.new results.new
        ≡ numbered (alone list.now samples.now drives.old results.old) }
{
    match controller::alone(list, samples, drives, results) {
        Ok(told) => {
            *end = end_number(told.end);
            *ticks = told.ticks as u64;
            0
        }
        Err(refusal) => {
            *end = 7;
            *ticks = 0;
            u8::from(refusal)
        }
    }
}
