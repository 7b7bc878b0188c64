// The entry "plain reading": a list without wires, and no ticks but their count.
#![tactic(auto)]

ghost use Rattle.std.specs.Prelude.{◌≡◌};
ghost use Rattle.lent.specs.Refusals.{answer_of};
ghost use Rattle.board.specs.Desk.{Outcome};
ghost use Rattle.reading.specs.Read.{plain_run};

use board::{check_board, load};
use lent::Refusal;
use messages::Run;
use orders::{check, start};
use plain::Time;

// The entry. What is wrong is found before a lent byte is changed.
pub fn read(
    list: &[u8],
    marks: u8,
    memory: &mut [u8],
    states: &mut [u8],
    holds: &[u8],
    asked: u16,
    results: &mut [u8],
) -> Result<usize, Refusal>
    ensures { ◌≡◌ {A = Outcome} (record { answer = answer_of result; memory = memory.new; states = states.new; results = results.new })
        (plain_run list.now marks memory.old states.old holds.now asked results.old) }
{
    let size = check(list)?;
    check_board(marks, memory, states, holds, asked)?;
    if results.len() < size {
        return Err(Refusal::AreaTooSmall);
    }
    start(list, size, results);
    let begun = Run {
        time: Time { now: 0, next: 0 },
        chips: load(marks, states),
    };
    let end = begun.transactions(list, holds, asked, memory, results);
    end.chips.save(end.time.now, states);
    Ok(end.time.now)
}
