// What the programs print: bytes in hex, and how an entry answered.
#![tactic(auto)]

ghost use Rattle.std.specs.Prelude.{Some};
ghost use Rattle.printing.specs.Text.{hex_text, outcome_text};

use lent::Refusal;
use std::fmt;

// Two digits each, in lower case, with no blanks between.
#[derive(Clone, Copy)]
pub struct Hex<'a>(pub &'a [u8]);

impl fmt::Display for Hex<'_> {
    ghost output = { λ h. Some (hex_text h.0.now) };

    fn fmt<W: fmt::Write>(&self, f: &mut fmt::Formatter<W>) -> fmt::Result {
        let bytes = self.0;
        for &byte in bytes {
            write!(f, "{byte:02x}")?;
        }
        Ok(())
    }
}

// The number of the refusal, 0 if there is none, and the ticks.
#[derive(Clone, Copy)]
pub struct Outcome(pub Result<usize, Refusal>);

impl fmt::Display for Outcome {
    ghost output = { λ o. Some (outcome_text o.0) };

    fn fmt<W: fmt::Write>(&self, f: &mut fmt::Formatter<W>) -> fmt::Result {
        let (number, ticks) = match self.0 {
            Ok(ticks) => (0, ticks),
            Err(refusal) => (u8::from(refusal), 0),
        };
        write!(f, "{number} {ticks}")
    }
}
