// Runs one chip alone over the records that standard input spells, a line a case, and writes what came out: number, ticks, pointer, busy ticks, the
// ticks in which SDA was pulled, the bytes that changed.
//
// A line is a name, a colon and commands. Hex digits make a number for the command after them:
//     ,        the byte is sent, its ninth symbol 0         r n      a byte is read, its ninth symbol 0 or 1
//     S R P    first START, repeated START, STOP            + -      one bit more, 1 or 0
//     i        so many ticks with the lines as they are     A B C D  one tick with the lines 0,0  1,0  0,1  1,1 (SCL, SDA)
//     x p u t  strap, pointer, busy ticks, asked time       E        one tick with the sample 4
//     m y v    bytes of memory, of state, of drives lent
//     ! ? ~    the same record again and again, cut at each tick by a STOP or a START, or with SDA flipped in that tick; then one byte is read
#![tactic(auto)]

mod report;
mod script;

use eeprom::{put_state, word_at};
use io::read_full;
use lone_chip::chip_alone;
use printing::Outcome;
use report::{Drives, Report};
use script::{Case, Script, Tape};
use std::alloc::{AllocError, Global};

// Standard input's number.
const STDIN: i32 = 0;

// No more of the input is read.
const MOST_INPUT: usize = 65536;

// The chip on a record.
fn runs(rt: &HostRuntime, case: &Case, record: &[u8]) -> std::io::Result<()> {
    let mut memory = report::first_bytes();
    let mut state = [0; 4];
    put_state(&mut state, case.pointer, case.busy);
    let mut drives = vec![in rt.alloc(); 0; usize::from(case.drives)]?;
    let outcome = chip_alone(
        case.strap,
        &mut memory[..usize::from(case.memory).min(4096)],
        &mut state[..usize::from(case.state).min(4)],
        case.asked,
        record,
        &mut drives,
    );
    drives.truncate(outcome.unwrap_or(0));
    let report = Report {
        outcome: Outcome(outcome),
        pointer: word_at(&state, 0),
        busy: word_at(&state, 2),
        drives: match case.sweep {
            None => Drives::Pulled(&drives),
            Some(_) => Drives::Summed(&drives),
        },
        memory: &memory,
    };
    println!(rt; "{report}")
}

fn shows(rt: &HostRuntime, script: &Script) -> std::io::Result<()> {
    let case = &script.case;
    let record = script.tape.samples.as_slice();
    let Some(sweep) = case.sweep else {
        return runs(rt, case, record);
    };
    println!(rt)?;
    for tick in 0..record.len() {
        let tape = Tape::swept(rt.alloc(), sweep, record, tick)?;
        print!(rt; " {tick}")?;
        runs(rt, case, &tape.samples)?;
    }
    Ok(())
}

// What standard input holds. A read that fails or is interrupted ends it, and what came before it counts.
fn input(alloc: Global) -> Result<Vec<u8>, AllocError> {
    let mut text = vec![in alloc; 0; MOST_INPUT]?;
    let held = read_full(STDIN, &mut text);
    text.truncate(held);
    Ok(text)
}

fn main(rt: HostRuntime) -> std::io::Result<()> {
    let text = input(rt.alloc())?;
    // the name is written as it stands, the commands make the record
    for line in text.split_inclusive(|byte| *byte == b'\n') {
        let whole = line.strip_suffix(b"\n");
        let line = whole.unwrap_or(line);
        let colon = line.iter().position(|byte| *byte == b':');
        let (name, commands) = line.split_at(colon.map_or(line.len(), |at| at + 1));
        // Stays: a name is bytes, and need be no text
        rt.write_all(name)?;
        if whole.is_some() {
            shows(&rt, &Script::of(rt.alloc(), commands)?)?;
        }
    }
    Ok(())
}
