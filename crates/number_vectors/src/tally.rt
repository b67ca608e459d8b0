// A checksum over outcomes, with the number of faults.
ghost use Rattle.std.specs.Iterator.{IsFinite};

use number::Number;
use number::value::encode;
use operator::{ArithmeticError, Outcome};
use std::fmt;

// The greatest prime below 2^32.
const MODULUS: u64 = 4294967291;

// The checksum with one byte more.
fn checksum_byte(sum: u32, byte: u8) -> u32 {
    ((u64::from(sum) * 16777619 + u64::from(byte)) % MODULUS) as u32
}

// The checksum with these bytes more.
pub fn checksum(start: u32, bytes: &[u8]) -> u32 {
    bytes
        .iter()
        .fold(start, |sum, byte| checksum_byte(sum, *byte))
}

// How many outcomes are faults 7 and 8, beside the checksum of all.
#[derive(Clone, Copy, Default)]
pub struct Tally {
    sum: u32,
    sevens: u32,
    eights: u32,
}

impl Tally {
    fn count_value(&mut self, a: Number) {
        let encoded = encode(a);
        self.sum = checksum(self.sum, &[encoded.kind]);
        self.sum = checksum(self.sum, &encoded.bytes);
    }

    pub fn count(&mut self, outcome: Outcome) {
        match outcome {
            Ok(a) => self.count_value(a),
            Err(ArithmeticError::DivisionByZero) => {
                self.sum = checksum(self.sum, &[7]);
                self.sevens = self.sevens.wrapping_add(1);
            }
            Err(ArithmeticError::OutOfRange) => {
                self.sum = checksum(self.sum, &[8]);
                self.eights = self.eights.wrapping_add(1);
            }
        }
    }

    pub fn count_all<I: Iterator<Item = Outcome>>(&mut self, outcomes: I)
        requires can { I.can_next outcomes }
        requires ends { IsFinite (I.remaining outcomes) }
    {
        for outcome in outcomes {
            self.count(outcome);
        }
    }
}

impl fmt::Display for Tally {
    fn fmt<W: fmt::Write>(&self, f: &mut fmt::Formatter<W>) -> fmt::Result {
        write!(f, "{:08x} {} {}", self.sum, self.sevens, self.eights)
    }
}
