// What a unit adds: a number and weights, within the bounds that every unit keeps to.
ghost use Rattle.std.specs.Prelude.{◌≡◌, ◌^◌, ◌<◌, ◌≤◌, length, unsigned_abs};
ghost use Rattle.refusals.specs.Refusing.{Made};
ghost use Rattle.units.specs.Meaning.{Bounded, number_check};

use refusals::Refusal;

// An aligned number, which lies below 2^36 in magnitude. One of the numbers that are checked once, where they are made; each
// has a range, a refusal and a meaning of its own.
#[derive(Clone, Copy)]
pub struct Number {
    pub value: i64,
    ghost small: { unsigned_abs value < 2 ^ 36 },
}

impl Number {
    pub fn new(value: i64) -> Result<Number, Refusal>
        ensures { Made (number_check value) (λ n. n.value ≡ value) result }
    {
        if value.unsigned_abs() >= 1 << 36 {
            return Err(Refusal::NumberTooLarge);
        }
        Ok(Number { value })
    }
}

// A number, and a weight for each column that it goes into.
#[derive(Clone, Copy)]
pub struct Row<'a> {
    pub number: Number,
    pub weights: &'a [i16],
    ghost few: { length weights.now ≤ 16 },
    ghost light: { Bounded 255 weights.now },
}
