// From the commands of a line to a record of samples, by the table of symbols.
ghost use Rattle.std.specs.Prelude.{◌<◌, length};

use lines::{Lines, bit_at};
use std::alloc::{AllocError, Global};
use std::mem;

// A record is cut off after so many ticks.
const MOST_TICKS: usize = 65535;

// The record so far, and the lines of its last tick.
#[derive(Drop)]
pub struct Tape {
    pub samples: Vec<u8>,
    lines: Lines,
}

// What is done at each tick of a record in turn: it ends there in a STOP or a START, or SDA is flipped there.
#[derive(Clone, Copy)]
pub enum Sweep {
    Stop,
    Start,
    Flip,
}

// What is lent and asked for, and the sweep if there is one.
#[derive(Clone, Copy)]
pub struct Case {
    pub strap: u8,
    pub pointer: u16,
    pub busy: u16,
    pub asked: u16,
    pub memory: u16,
    pub state: u16,
    pub drives: u16,
    pub sweep: Option<Sweep>,
}

#[derive(Drop)]
pub struct Script {
    pub tape: Tape,
    pub case: Case,
    // the number that the hex digits make
    number: u16,
}

impl Tape {
    fn opened(alloc: Global) -> Tape {
        Tape {
            samples: Vec::new(alloc),
            lines: Lines::released(),
        }
    }

    fn sample(&mut self, sample: u8) -> Result<(), AllocError> {
        if self.samples.len() < MOST_TICKS {
            self.samples.push(sample)?;
        }
        self.lines = Lines::from(sample);
        Ok(())
    }

    fn replay(&mut self, samples: &[u8]) -> Result<(), AllocError> {
        for sample in samples {
            self.sample(*sample)?;
        }
        Ok(())
    }

    // A tick for each pair of SCL and SDA.
    fn ticks(&mut self, levels: [(bool, bool); 4]) -> Result<(), AllocError> {
        for (scl, sda) in levels {
            self.sample(u8::from(Lines { scl, sda }))?;
        }
        Ok(())
    }

    // A bit, sent or received.
    fn bit(&mut self, bit: bool) -> Result<(), AllocError> {
        let was = self.lines.sda;
        self.ticks([(false, was), (false, bit), (true, bit), (true, bit)])
    }

    // The first START of a transaction.
    fn start(&mut self) -> Result<(), AllocError> {
        self.ticks([(true, true), (true, true), (true, true), (true, false)])
    }

    fn repeated(&mut self) -> Result<(), AllocError> {
        let was = self.lines.sda;
        self.ticks([(false, was), (false, true), (true, true), (true, false)])
    }

    fn stop(&mut self) -> Result<(), AllocError> {
        let was = self.lines.sda;
        self.ticks([(false, was), (false, false), (true, false), (true, true)])
    }

    // Eight bits and the ninth.
    fn byte(&mut self, byte: u8, ninth: bool) -> Result<(), AllocError> {
        for place in (0..8).rev() {
            self.bit(bit_at(place, byte))?;
        }
        self.bit(ninth)
    }

    fn idle(&mut self, ticks: u16) -> Result<(), AllocError> {
        for _ in 0..ticks {
            self.sample(u8::from(self.lines))?;
        }
        Ok(())
    }

    // A record again, with something at one of its ticks, and then one byte is read: what the chip stands ready to send.
    pub fn swept(
        alloc: Global,
        sweep: Sweep,
        samples: &[u8],
        tick: usize,
    ) -> Result<Tape, AllocError>
        requires { tick < length samples.now }
    {
        let mut tape = Tape::opened(alloc);
        match sweep {
            Sweep::Stop => {
                tape.replay(&samples[..tick])?;
                tape.replay(&[1, 3])?;
                tape.start()?;
            }
            Sweep::Start => {
                tape.replay(&samples[..tick])?;
                tape.replay(&[3, 1])?;
            }
            Sweep::Flip => {
                let mut flipped = samples.to_vec(alloc)?;
                flipped[tick] = (samples[tick] ^ 2) % 4;
                tape.replay(&flipped)?;
                tape.start()?;
            }
        }
        tape.byte(161, false)?;
        tape.byte(255, true)?;
        tape.stop()?;
        Ok(tape)
    }
}

fn hex_digit(command: u8) -> Option<u8> {
    match command {
        b'0'..=b'9' => Some(command - b'0'),
        b'a'..=b'f' => Some(command - b'a' + 10),
        _ => None,
    }
}

impl Script {
    pub fn of(alloc: Global, commands: &[u8]) -> Result<Script, AllocError> {
        let mut script = Script {
            tape: Tape::opened(alloc),
            case: Case {
                strap: 0,
                pointer: 0,
                busy: 0,
                asked: 8000,
                memory: 4096,
                state: 4,
                drives: 65535,
                sweep: None,
            },
            number: 0,
        };
        for command in commands {
            match hex_digit(*command) {
                Some(digit) => script.number = script.number << 4 | u16::from(digit),
                None => script.obey(*command)?,
            }
        }
        Ok(script)
    }

    // A command takes the number before it, whether it is one that has use for it or not.
    fn obey(&mut self, command: u8) -> Result<(), AllocError> {
        let number = mem::take(&mut self.number);
        let [low, _] = number.to_le_bytes();
        let tape = &mut self.tape;
        let case = &mut self.case;
        match command {
            b',' => tape.byte(low, false)?,
            b'r' => tape.byte(255, false)?,
            b'n' => tape.byte(255, true)?,
            b'S' => tape.start()?,
            b'R' => tape.repeated()?,
            b'P' => tape.stop()?,
            b'+' => tape.bit(true)?,
            b'-' => tape.bit(false)?,
            b'i' => tape.idle(number)?,
            b'A'..=b'E' => tape.sample(command - b'A')?,
            b'x' => case.strap = low,
            b'p' => case.pointer = number,
            b'u' => case.busy = number,
            b't' => case.asked = number,
            b'm' => case.memory = number,
            b'y' => case.state = number,
            b'v' => case.drives = number,
            b'!' => case.sweep = Some(Sweep::Stop),
            b'?' => case.sweep = Some(Sweep::Start),
            b'~' => case.sweep = Some(Sweep::Flip),
            _ => {}
        }
        Ok(())
    }
}
