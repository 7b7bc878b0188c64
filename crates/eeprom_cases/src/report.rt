// What came out of a run, in words.
use printing::Outcome;
use std::{array, fmt};

// The memory before a run.
pub fn first_bytes() -> [u8; 4096] {
    array::from_fn(|place| (place % 251) as u8)
}

// Number, ticks, pointer, busy ticks, the drive bytes, and the places whose byte is another one now.
#[derive(Clone, Copy)]
pub struct Report<'a> {
    pub outcome: Outcome,
    pub pointer: u16,
    pub busy: u16,
    pub drives: Drives<'a>,
    pub memory: &'a [u8],
}

#[derive(Clone, Copy)]
pub enum Drives<'a> {
    // the ticks in which SDA was pulled, as first-last
    Pulled(&'a [u8]),
    // all in one number
    Summed(&'a [u8]),
}

impl fmt::Display for Report<'_> {
    fn fmt<W: fmt::Write>(&self, f: &mut fmt::Formatter<W>) -> fmt::Result {
        let Report {
            outcome,
            pointer,
            busy,
            drives,
            ..
        } = self;
        write!(f, " {outcome} {pointer} {busy}{drives}")?;
        for (place, (byte, first)) in self.memory.iter().zip(&first_bytes()).enumerate() {
            if byte != first {
                write!(f, " {place}:{byte:02x}")?;
            }
        }
        Ok(())
    }
}

impl fmt::Display for Drives<'_> {
    fn fmt<W: fmt::Write>(&self, f: &mut fmt::Formatter<W>) -> fmt::Result {
        match self {
            Drives::Pulled(drives) => pulled(f, drives),
            Drives::Summed(drives) => {
                // the first remainder only shows that the product fits
                let sum = drives.iter().fold(1, |sum: u64, drive| {
                    (sum % 65521 * 31 + u64::from(*drive)) % 65521
                });
                write!(f, " sum {sum}")
            }
        }
    }
}

// A drive byte that is neither 1 nor 3 would be told.
fn pulled<W: fmt::Write>(f: &mut fmt::Formatter<W>, drives: &[u8]) -> fmt::Result {
    write!(f, " low")?;
    let mut tick = 0usize;
    for alike in drives.chunk_by(|a, b| a == b) {
        let next = tick.saturating_add(alike.len());
        match alike.first() {
            Some(1) => write!(f, " {tick}-{}", next.saturating_sub(1))?,
            Some(3) => {}
            _ => {
                for _ in alike {
                    write!(f, " strange")?;
                }
            }
        }
        tick = next;
    }
    Ok(())
}
