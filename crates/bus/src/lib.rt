// The entry "whole-bus run": what is wrong is turned down, and the rest goes over the wires.
#![tactic(auto)]

ghost use Rattle.std.specs.Prelude.{◌≡◌, Ok};
ghost use Rattle.lent.specs.Refusals.{answer_of};
ghost use Rattle.bus.specs.Inside.{Fine};
ghost use Rattle.bus.specs.Run.{traced, wire_run};

use board::{check_board, load};
use controller::Controller;
use lent::Refusal;
use lines::Eye;
use orders::{check, start};
use wires::{Bus, Holder, goes};

// The accepted part of the run: the result area started, the chips loaded, ticks until the end, the states saved.
fn accepted(
    list: &[u8],
    size: usize,
    marks: u8,
    memory: &mut [u8],
    states: &mut [u8],
    holds: &[u8],
    asked: u16,
    results: &mut [u8],
    trace: &mut [u8],
) -> usize
    requires { Fine list.now size marks memory.old states.old holds.now asked results.old }
    ensures { traced (answer_of (Ok result)) memory.new states.new results.new trace.new
        ≡ wire_run list.now marks memory.old states.old holds.now asked results.old trace.old }
{
    start(list, size, results);
    let bus = Bus {
        control: Controller::first(list),
        hold: Holder { left: 0, next: 0 },
        eye: Eye::opened(),
        up: true,
    };
    let chips = load(marks, states);
    let ran = goes(bus, chips, asked, list, holds, memory, results, trace);
    ran.chips.save(ran.ticks, states);
    ran.ticks
}

// The entry "whole-bus run": a list over two wires. The refusals are looked at in the order of their numbers, and change no lent byte.
pub fn run(
    list: &[u8],
    marks: u8,
    memory: &mut [u8],
    states: &mut [u8],
    holds: &[u8],
    asked: u16,
    results: &mut [u8],
    trace: &mut [u8],
) -> Result<usize, Refusal>
    ensures { traced (answer_of result) memory.new states.new results.new trace.new
        ≡ wire_run list.now marks memory.old states.old holds.now asked results.old trace.old }
{
    let size = check(list)?;
    check_board(marks, memory, states, holds, asked)?;
    if results.len() < size {
        return Err(Refusal::AreaTooSmall);
    }
    Ok(accepted(
        list, size, marks, memory, states, holds, asked, results, trace,
    ))
}
