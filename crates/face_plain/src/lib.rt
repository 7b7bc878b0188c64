// The plain reading for C and Rust, its answer in numbers; include/bilvakront.h says the same in C.
#![tactic(auto)]

ghost use Rattle.std.specs.Prelude.{◌≡◌};
ghost use Rattle.board.specs.Desk.{Outcome};
ghost use Rattle.reading.specs.Read.{plain_run};

#[unsafe(no_mangle)]
pub extern "C" fn bilvakront_plain_reading(
    list: &[u8],
    marks: u8,
    memory: &mut [u8],
    states: &mut [u8],
    holds: &[u8],
    asked: u16,
    results: &mut [u8],
    ticks: &mut u64,
) -> u8
    ensures { ◌≡◌ {A = Outcome} (record { answer = record { number = result; ticks = ticks.new }; memory = memory.new; states = states.new; results = results.new })
        (plain_run list.now marks memory.old states.old holds.now asked results.old) }
{
    match reading::read(list, marks, memory, states, holds, asked, results) {
        Ok(count) => {
            *ticks = count as u64;
            0
        }
        Err(refusal) => {
            *ticks = 0;
            u8::from(refusal)
        }
    }
}
