// The desk's program: it reads an order list from standard input, runs it over two wires on the bench sheet's board and prints the results and the ticks,
// or the number of the refusal. All that matters is in the proved library.
#![tactic(auto)]

use bus::run;
use io::read_full;
use lent::Refusal;
use orders::{check, room};
use printing::Hex;
use std::fmt;

// Standard input's number.
const STDIN: i32 = 0;

// The program's own bound on its input, no entry's.
const MOST_INPUT: usize = 512;

// More than a list within that bound can ask for.
const AREA: usize = 131072;

#[derive(Clone, Copy)]
struct Answer<'a> {
    results: &'a [u8],
    ticks: usize,
}

impl fmt::Display for Answer<'_> {
    fn fmt<W: fmt::Write>(&self, f: &mut fmt::Formatter<W>) -> fmt::Result {
        write!(f, "result")?;
        if !self.results.is_empty() {
            write!(f, " {}", Hex(self.results))?;
        }
        write!(f, "\nticks {}", self.ticks)
    }
}

// Chip 0 only, memory all FF, pointer 0, not busy, asked busy time 8,000, hold list empty.
fn bench<'a>(list: &[u8], area: &'a mut [u8]) -> Result<Answer<'a>, Refusal> {
    if MOST_INPUT < list.len() {
        return Err(Refusal::ListTooLong);
    }
    let mut memory = [255; 4096];
    let mut states = [0; 4];
    let ticks = run(list, 1, &mut memory, &mut states, &[], 8000, area, &mut [])?;
    // the run was accepted, so the area has that much room
    let size = room(check(list)).min(area.len());
    Ok(Answer {
        results: &area[..size],
        ticks,
    })
}

fn main(rt: HostRuntime) -> std::io::Result<()> {
    // a read that fails or is interrupted ends the input, and what came before it counts
    let mut input = [0; MOST_INPUT + 1];
    let held = read_full(STDIN, &mut input);
    let mut area = vec![in rt.alloc(); 0; AREA]?;
    match bench(&input[..held], &mut area) {
        Ok(answer) => println!(rt; "{answer}"),
        Err(refusal) => println!(rt; "refused {}", u8::from(refusal)),
    }
}
