// The controller alone on records: one that is right, with each sample in turn replaced by each level; cut after each tick; with SCL held longer; and
// what is refused. The answers in `stdout` are those of a model of the paper that was written apart from this code.
// A run is told as its end (L the list's, F a fault, R the record's, N refused), its ticks, and an outcome or another byte that the case is about.
#![tactic(auto)]

ghost use Rattle.std.specs.Prelude.{◌≤◌};

use controller::{End, Told, alone};
use lent::{Refusal, byte_at};
use std::alloc::{AllocError, Global};
use std::{fmt, io, iter};

const LIST: &[u8] = b"\x02\x02\x00\x50\x00\x01\xa5\x50\x01\x02";

// The list's run, a digit a tick.
const RECORD: &[u8] =
    b"333331023320011023320110011001100110011000011223320110233200110011023320110233201122231023320110233201100110011001102332011200112011222332233223322332011201120011001122332233201120112011201122332223320013";

// How a run ended, and what it left of the areas that were lent: 9 and 7 where nothing was written.
#[derive(Drop)]
struct Run {
    told: Result<Told, Refusal>,
    drives: Vec<u8>,
    results: Vec<u8>,
}

impl Run {
    // With areas of so many bytes.
    fn on(
        alloc: Global,
        list: &[u8],
        samples: &[u8],
        drives: usize,
        results: usize,
    ) -> Result<Run, AllocError> {
        let mut drives = vec![in alloc; 9; drives]?;
        let mut results = vec![in alloc; 7; results]?;
        let told = alone(list, samples, &mut drives, &mut results);
        Ok(Run {
            told,
            drives,
            results,
        })
    }

    fn first_result(&self) -> Row {
        Row {
            told: self.told,
            byte: byte_at(&self.results, 0),
        }
    }
}

fn letter(told: Result<Told, Refusal>) -> char {
    match told {
        Ok(told) => match told.end {
            End::ListEnd => 'L',
            End::Faulted(_) => 'F',
            End::RecordEnd => 'R',
        },
        Err(_) => 'N',
    }
}

#[derive(Clone, Copy)]
struct Row {
    told: Result<Told, Refusal>,
    byte: u8,
}

impl fmt::Display for Row {
    fn fmt<W: fmt::Write>(&self, f: &mut fmt::Formatter<W>) -> fmt::Result {
        let ticks = self.told.map_or(0, |told| told.ticks);
        write!(f, " {}{ticks}:{}", letter(self.told), self.byte)
    }
}

#[derive(Clone, Copy)]
struct Bytes<'a>(&'a [u8]);

impl fmt::Display for Bytes<'_> {
    fn fmt<W: fmt::Write>(&self, f: &mut fmt::Formatter<W>) -> fmt::Result {
        for byte in self.0 {
            write!(f, " {byte}")?;
        }
        Ok(())
    }
}

// A record that is written in digits, as samples.
fn samples_of(alloc: Global, digits: &[u8]) -> Result<Vec<u8>, AllocError> {
    digits.iter().map(|digit| digit % 4).collect(alloc)
}

// A right record, whole, and the lines at 1,1 after it: the results, and what was driven.
fn whole(rt: &HostRuntime, list: &[u8], digits: &[u8]) -> io::Result<()> {
    let alloc = rt.alloc();
    let mut samples = samples_of(alloc, digits)?;
    samples.resize(210, 3)?;
    let run = Run::on(alloc, list, &samples, 210, 14)?;
    println!(rt; "{}{}", run.first_result(), Bytes(&run.results))?;
    println!(rt; "{}", Bytes(&run.drives))
}

fn replaced(alloc: Global, record: &[u8], tick: usize, level: u8) -> Result<Vec<u8>, AllocError> {
    record
        .iter()
        .enumerate()
        .map(|(at, &sample)| if at == tick { level } else { sample })
        .collect(alloc)
}

// Each sample replaced by each level, and the same cut after that sample: a fault on the last sample wins over the record's end.
fn replace_each(rt: &HostRuntime, record: &[u8]) -> io::Result<()> {
    let alloc = rt.alloc();
    for tick in 0..record.len() {
        print!(rt; "{tick}")?;
        for level in 0..4 {
            let samples = replaced(alloc, record, tick, level)?;
            let run = Run::on(alloc, LIST, &samples, record.len(), 9)?;
            print!(rt; "{}", run.first_result())?;
        }
        print!(rt; " ")?;
        for level in 0..4 {
            let mut samples = replaced(alloc, record, tick, level)?;
            samples.truncate(tick + 1);
            let run = Run::on(alloc, LIST, &samples, record.len(), 9)?;
            print!(rt; "{}", letter(run.told))?;
        }
        println!(rt)?;
    }
    Ok(())
}

// The record cut after each tick, with the drive byte behind its last and all results by then.
fn cut_each(rt: &HostRuntime, record: &[u8]) -> io::Result<()> {
    for ticks in 0..=record.len() {
        let run = Run::on(rt.alloc(), LIST, &record[..ticks], record.len(), 9)?;
        let row = Row {
            told: run.told,
            byte: byte_at(&run.drives, ticks),
        };
        println!(rt; "{ticks}{row}{}", Bytes(&run.results))?;
    }
    Ok(())
}

// The record with SCL held low from a tick on, on top of what it holds there.
fn held(alloc: Global, record: &[u8], from: usize, ticks: usize) -> Result<Vec<u8>, AllocError> {
    let before = record.iter().copied().take(from);
    let low = iter::repeat_n(byte_at(record, from) & 2, ticks);
    let after = record.iter().copied().skip(from);
    before
        .chain(low)
        .chain(after)
        .chain(iter::repeat(3))
        .take(240)
        .collect(alloc)
}

// At the first START, a sent 1 and 0, a received bit, a repeated START, a read byte's bit, its answer, and STOP, each at the start of its phase 2.
fn hold_each(rt: &HostRuntime, record: &[u8]) -> io::Result<()> {
    let alloc = rt.alloc();
    for from in [4, 8, 21, 41, 84, 130, 196, 201] {
        print!(rt; "{from}")?;
        for ticks in [1, 14, 15, 16, 17] {
            let samples = held(alloc, record, from, ticks)?;
            let run = Run::on(alloc, LIST, &samples, 240, 9)?;
            print!(rt; "{}", run.first_result())?;
        }
        println!(rt)?;
    }
    Ok(())
}

// The number, and the drive area: only so many bytes of either area are lent, and a refusal changes none of them.
fn asked(
    rt: &HostRuntime,
    list: &[u8],
    samples: &[u8],
    drives_lent: usize,
    results_lent: usize,
) -> io::Result<()>
    requires { (drives_lent ≤ 4) × (results_lent ≤ 4) }
{
    let mut drives = [9; 4];
    let mut results = [7; 4];
    let told = alone(
        list,
        samples,
        &mut drives[..drives_lent],
        &mut results[..results_lent],
    );
    let number = match told {
        Ok(_) => 0,
        Err(refusal) => u8::from(refusal),
    };
    let row = Row {
        told,
        byte: results[0],
    };
    println!(rt; "{number}{row}{}", Bytes(&drives))
}

// The list is looked at before the samples, and the samples before the drive buffer.
fn lists_refused(rt: &HostRuntime) -> io::Result<()> {
    asked(rt, &[], &[], 0, 0)?;
    asked(rt, &[], &[3, 3], 2, 0)?;
    asked(rt, &[0; 4097], &[4], 0, 0)?;
    asked(rt, &[0; 4096], &[4], 0, 0)?;
    asked(rt, &[1, 0, 0], &[4], 0, 0)?;
    asked(rt, &[], &[3, 4], 0, 0)?;
    asked(rt, &[], &[3], 0, 0)
}

// A message of no byte: the drive buffer is looked at before the result area.
fn room_refused(rt: &HostRuntime) -> io::Result<()> {
    let list = b"\x01\x00\x00\x50\x00\x00";
    asked(rt, list, &[4], 0, 0)?;
    asked(rt, list, &[3], 0, 0)?;
    asked(rt, list, &[3], 1, 2)?;
    asked(rt, list, &[3], 1, 3)?;
    asked(rt, list, &[2], 1, 3)?;
    asked(rt, list, &[], 0, 3)
}

fn main(rt: HostRuntime) -> io::Result<()> {
    let record = samples_of(rt.alloc(), RECORD)?;
    println!(rt; "right")?;
    whole(&rt, LIST, RECORD)?;
    whole(
        &rt,
        b"\x02\x00\x00\x51\x00\x00\x50\x01\x03\x02\x01\x00\x51\x02\x01\x11\x50\x00\x02\x80\x7f",
        b"333102332011023320110011001102332011023320133333102332011023320110011001102332011023322310233201102332011001100110011001100112233201100110011001100110011001100112011023322332233223322332233223322332013",
    )?;
    println!(rt; "one sample replaced")?;
    replace_each(&rt, &record)?;
    println!(rt; "the record's end")?;
    cut_each(&rt, &record)?;
    println!(rt; "held")?;
    hold_each(&rt, &record)?;
    println!(rt; "refused")?;
    lists_refused(&rt)?;
    room_refused(&rt)
}
