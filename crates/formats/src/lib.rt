// Number formats: each turns a word into a sign, a significand and an exponent, or says that the word is not finite.
#![tactic(auto)]

ghost use Rattle.std.specs.Prelude.{◌≡◌};
ghost use Rattle.formats.specs.Coding.{Coding, Lawful};

mod fixed;
mod ieee;

pub use fixed::Fixed8;
pub use ieee::{Bfloat16, Binary16, Binary32, Interchange, words_count_up};

pub trait Format {
    type Word: Copy;

    // The decoding of every word, and the range of what it decodes to.
    ghost meaning: { Self → Coding Self.Word };

    // Every significand is below 2 to this power.
    fn precision(&self) -> u32
        ensures { result ≡ (meaning self.now).precision };

    // No exponent is below this one.
    fn least(&self) -> i32
        ensures { result ≡ (meaning self.now).least };

    // No exponent is above this one.
    fn greatest(&self) -> i32
        ensures { result ≡ (meaning self.now).greatest };

    // The sign (1 or -1), the significand and the exponent of a finite word: three plain numbers, by a rule of the module, so
    // that a format of one's own needs none of its types. The sign is a number: the value is the product.
    fn decode(&self, word: Self::Word) -> Option<(i8, u32, i32)>
        ensures value { result ≡ (meaning self.now).decode word };

    ghost lawful: { (f : Self) → Lawful (meaning f) };
}
