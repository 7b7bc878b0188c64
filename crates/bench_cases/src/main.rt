// The whole bench sheet, unstarred cases included, over the wires and by the plain reading: a line for each case and each way, held against stored output.
// A line: the number, the ticks, the result area, the pointer, the busy ticks left, and the bytes at places 0, 16, 31 and 32.
#![tactic(auto)]

use eeprom::{put_state, word_at};
use lent::Refusal;
use orders::{check, room};
use printing::{Hex, Outcome};
use std::{fmt, io};

#[derive(Clone, Copy)]
struct Case<'a> {
    list: &'a [u8],
    holds: &'a [u8],
    pointer: u16,
    busy: u16,
    memory: [u8; 4096],
}

impl<'a> Case<'a> {
    // Chip 0 only, memory all FF, pointer 0, not busy, no holds.
    fn of(list: &'a [u8]) -> Case<'a> {
        Case {
            list,
            holds: &[],
            pointer: 0,
            busy: 0,
            memory: [255; 4096],
        }
    }
}

// What a case left, one way or the other.
#[derive(Clone, Copy)]
struct Left<'a> {
    outcome: Result<usize, Refusal>,
    results: &'a [u8],
    pointer: u16,
    busy: u16,
    bytes: [u8; 4],
}

impl fmt::Display for Left<'_> {
    fn fmt<W: fmt::Write>(&self, f: &mut fmt::Formatter<W>) -> fmt::Result {
        write!(f, "{}", Outcome(self.outcome))?;
        if self.outcome.is_ok() {
            write!(f, " {}", Hex(self.results))?;
        }
        write!(f, " {} {}", self.pointer, self.busy)?;
        for byte in self.bytes {
            write!(f, " {byte:02x}")?;
        }
        Ok(())
    }
}

// `run` takes the memory, the state and the result area.
fn show<F>(rt: &HostRuntime, way: &str, case: &Case<'_>, run: F) -> io::Result<()>
where
    F: FnOnce(&mut [u8], &mut [u8], &mut [u8]) -> Result<usize, Refusal>,
    requires { F.IsAlwaysCallable run }
{
    let mut memory = case.memory;
    let mut state = [0; 4];
    put_state(&mut state, case.pointer, case.busy);
    let mut results = vec![in rt.alloc(); 170; room(check(case.list))]?;
    let outcome = run(&mut memory, &mut state, &mut results);
    let left = Left {
        outcome,
        results: &results,
        pointer: word_at(&state, 0),
        busy: word_at(&state, 2),
        bytes: [memory[0], memory[16], memory[31], memory[32]],
    };
    println!(rt; "{way} {left}")
}

fn both(rt: &HostRuntime, case: &Case<'_>) -> io::Result<()> {
    show(rt, "wires", case, |memory, state, results| {
        bus::run(
            case.list,
            1,
            memory,
            state,
            case.holds,
            8000,
            results,
            &mut [],
        )
    })?;
    show(rt, "plain", case, |memory, state, results| {
        reading::read(case.list, 1, memory, state, case.holds, 8000, results)
    })
}

const SHEET: [&[u8]; 14] = [
    b"",
    b"\x01\x00\x00\x50\x00\x00",
    b"\x01\x00\x00\x51\x00\x00",
    b"\x02\x00\x00\x51\x02\x00\x50\x00\x00",
    b"\x02\x00\x00\x51\x00\x00\x50\x00\x00",
    b"\x02\x00\x00\x50\x00\x02\x00\x10\x50\x01\x02",
    b"\x01\x00\x00\x50\x00\x04\x00\x1f\xa1\xb2",
    // write 00 10 AA, then a message to 51 in the same transaction: nothing stored, pointer 17
    b"\x02\x00\x00\x50\x00\x03\x00\x10\xaa\x51\x02\x00",
    // 33 data bytes from 0: place 0 holds the 33rd
    b"\x01\x00\x00\x50\x00\x23\x00\x00\x01\x02\x03\x04\x05\x06\x07\x08\x09\x0a\x0b\x0c\x0d\x0e\x0f\x10\x11\x12\x13\x14\x15\x16\x17\x18\x19\x1a\x1b\x1c\x1d\x1e\x1f\x20\x21",
    b"\x01\x00\x00\x50\x01\x00",
    b"\x09\x00\x00\x50\x01\x01",
    b"\x01\x00\x00\x80\x01\x01",
    b"\x01\x00\x00\x50\x01\x41",
    b"\x01\x00\x00\x50\x01\x40",
];

const EMPTY_WRITE: &[u8] = b"\x01\x00\x00\x50\x00\x00";

fn main(rt: HostRuntime) -> io::Result<()> {
    for list in SHEET {
        both(&rt, &Case::of(list))?;
    }
    // the last place and the first, with bytes that differ
    let mut memory = [255; 4096];
    memory[4095] = 0x5a;
    memory[0] = 0xa5;
    let wrapped = Case {
        pointer: 4095,
        memory,
        ..Case::of(b"\x01\x00\x00\x50\x01\x02")
    };
    both(&rt, &wrapped)?;
    for holds in [[16; 10].as_slice(), &[17]] {
        let held = Case {
            holds,
            ..Case::of(EMPTY_WRITE)
        };
        both(&rt, &held)?;
    }
    // the busy time is over in time for the address after a wait of 7,964 ticks, and not after 7,963
    for list in [b"\x01\x1c\x1f\x50\x00\x00", b"\x01\x1b\x1f\x50\x00\x00"] {
        let busy = Case {
            busy: 8000,
            ..Case::of(list)
        };
        both(&rt, &busy)?;
    }
    Ok(())
}
