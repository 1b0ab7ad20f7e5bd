// Bytes counted in units of a power of two.
ghost use Rattle.std.specs.Prelude.{◌≡◌, ℤ, pos, neg_ℤ, ◌≤ℤ◌};
ghost use Rattle.refusals.specs.Refusing.{Made};
ghost use Rattle.formats.specs.Fixed.{fixed, power_check};
ghost use Rattle.formats.specs.Lawful.{fixed_lawful};

use crate::Format;
use refusals::Refusal;

// The magnitude of a byte is at most 128, which has eight bits.
const PRECISION: u32 = 8;

// A two's complement byte times 2 to the power.
#[derive(Clone, Copy)]
pub struct Fixed8 {
    power: i32,
    ghost low: { neg_ℤ (pos 64) ≤ℤ power },
    ghost high: { power ≤ℤ pos 64 },
}

impl Fixed8 {
    // The format of the given power, which is from -64 to 64.
    pub fn new(power: i32) -> Result<Fixed8, Refusal>
        ensures { Made (power_check power) (λ f. f.power ≡ power) result }
    {
        if !(-64..=64).contains(&power) {
            return Err(Refusal::PowerRange);
        }
        Ok(Fixed8 { power })
    }
}

impl Format for Fixed8 {
    type Word = u8;

    ghost meaning = { λ f. fixed f.power };

    ghost lawful = { λ f. fixed_lawful f.power f.low f.high };

    fn precision(&self) -> u32 {
        PRECISION
    }

    fn least(&self) -> i32 {
        self.power
    }

    fn greatest(&self) -> i32 {
        self.power
    }

    fn decode(&self, word: u8) -> Option<(i8, u32, i32)> {
        if word < 128 {
            Some((1, u32::from(word), self.power))
        } else {
            Some((-1, 256 - u32::from(word), self.power))
        }
    }
}
