// The binary layouts of IEEE 754: a sign bit, an exponent field and a fraction, from the highest bit down.
ghost use Rattle.std.specs.Prelude.{◌≡◌, ℕ, ◌+◌, ◌-◌, ◌*◌, ◌%◌, ◌^◌, ◌<◌, ◌≤◌, refl, from_bits};
ghost use Rattle.std.specs.Float.{binary32};
ghost use Rattle.std.proofs.Common.{lit≤};
ghost use Rattle.formats.specs.Interchange.{interchange, coding, exponent, written};
ghost use Rattle.formats.specs.Agreement.{Same, Widened};
ghost use Rattle.formats.specs.Counting.{WordsCountUp};
ghost use Rattle.formats.specs.Lawful.{layout_lawful, written_lawful};

use crate::Format;

// A layout by its two widths. The three below differ in nothing else.
pub trait Interchange {
    // An unsigned number, whose lowest bits are the word.
    type Bits: Copy + Into<u32>;

    ghost number: { Self.Bits → ℕ };

    ghost EXPONENT_BITS: { ℕ };

    ghost FRACTION_BITS: { ℕ };

    const EXPONENT_BITS: u32;

    const FRACTION_BITS: u32;

    ghost exponent_width: { (4 ≤ EXPONENT_BITS) × (EXPONENT_BITS ≤ 8) };

    ghost fraction_width: { (1 ≤ FRACTION_BITS) × (FRACTION_BITS ≤ 23) };

    ghost converted: { (w : Self.Bits) (n : ℕ) → Self.Bits.converts w n → n ≡ number w };
}

// IEEE 754's half precision.
#[derive(Clone, Copy)]
pub struct Binary16;

impl Interchange for Binary16 {
    type Bits = u16;

    ghost number = { λ w. w };

    ghost EXPONENT_BITS = { 5 };

    ghost FRACTION_BITS = { 10 };

    const EXPONENT_BITS: u32 = 5;

    const FRACTION_BITS: u32 = 10;

    ghost exponent_width = { (lit≤ tt, lit≤ tt) };

    ghost fraction_width = { (lit≤ tt, lit≤ tt) };

    ghost converted = { λ w n e. e };
}

// The upper half of a binary32 word.
#[derive(Clone, Copy)]
pub struct Bfloat16;

impl Interchange for Bfloat16 {
    type Bits = u16;

    ghost number = { λ w. w };

    ghost EXPONENT_BITS = { 8 };

    ghost FRACTION_BITS = { 7 };

    const EXPONENT_BITS: u32 = 8;

    const FRACTION_BITS: u32 = 7;

    ghost exponent_width = { (lit≤ tt, lit≤ tt) };

    ghost fraction_width = { (lit≤ tt, lit≤ tt) };

    ghost converted = { λ w n e. e };
}

// IEEE 754's single precision.
#[derive(Clone, Copy)]
pub struct Binary32;

impl Interchange for Binary32 {
    type Bits = u32;

    ghost number = { λ w. w };

    ghost EXPONENT_BITS = { 8 };

    ghost FRACTION_BITS = { 23 };

    const EXPONENT_BITS: u32 = 8;

    const FRACTION_BITS: u32 = 23;

    ghost exponent_width = { (lit≤ tt, lit≤ tt) };

    ghost fraction_width = { (lit≤ tt, lit≤ tt) };

    ghost converted = { λ w n e. e };
}

impl<T: Interchange> Format for T {
    type Word = T::Bits;

    ghost meaning = { λ _. written T.number (coding T.EXPONENT_BITS T.FRACTION_BITS) };

    ghost lawful = { λ _. written_lawful T.number _ (layout_lawful T.EXPONENT_BITS T.FRACTION_BITS T.exponent_width.0 T.exponent_width.1 T.fraction_width.0 T.fraction_width.1) };

    // The fraction and the leading one, which is not written.
    fn precision(&self) -> u32 {
        T::FRACTION_BITS + 1
    }

    fn least(&self) -> i32 {
        exponent::<T>(1)
    }

    // The field of all ones is left to what is not finite.
    fn greatest(&self) -> i32 {
        exponent::<T>(power(T::EXPONENT_BITS) - 2)
    }

    // The layout with more fraction bits reads the same number where zero bits follow, and the toolchain's own binary32 reads alike.
    fn decode(&self, word: T::Bits) -> Option<(i8, u32, i32)>
        ensures value { result ≡ interchange T.EXPONENT_BITS T.FRACTION_BITS (T.number word) }
        ensures widened { (k : ℕ) → Widened k result (interchange T.EXPONENT_BITS (T.FRACTION_BITS + k) (T.number word * 2 ^ k)) }
        ensures ieee { T.EXPONENT_BITS ≡ 8 → T.FRACTION_BITS ≡ 23 → Same result (from_bits binary32 (T.number word)) }
    {
        decode_number::<T>(word.into())
    }
}

fn decode_number<T: Interchange>(word: u32) -> Option<(i8, u32, i32)>
    ensures { result ≡ interchange T.EXPONENT_BITS T.FRACTION_BITS word }
{
    let fraction = low_bits(word, T::FRACTION_BITS);
    let field = low_bits(word >> T::FRACTION_BITS, T::EXPONENT_BITS);
    let negative = low_bits(word >> (T::FRACTION_BITS + T::EXPONENT_BITS), 1);
    let sign = if negative == 0 { 1 } else { -1 };
    if field == power(T::EXPONENT_BITS) - 1 {
        None
    } else if field == 0 {
        Some((sign, fraction, exponent::<T>(1)))
    } else {
        Some((
            sign,
            power(T::FRACTION_BITS) + fraction,
            exponent::<T>(field),
        ))
    }
}

// The exponent of a significand's last bit: the field less the bias, less the places of the fraction.
fn exponent<T: Interchange>(field: u32) -> i32
    requires { field < 256 }
    ensures { result ≡ exponent T.EXPONENT_BITS T.FRACTION_BITS field }
{
    let bias = power(T::EXPONENT_BITS - 1) - 1;
    field as i32 - (bias + T::FRACTION_BITS) as i32
}

fn low_bits(word: u32, count: u32) -> u32
    requires { count < 32 }
    ensures { result ≡ word % 2 ^ count }
{
    word % power(count)
}

fn power(exponent: u32) -> u32
    requires { exponent < 32 }
    ensures { result ≡ 2 ^ exponent }
{
    1 << exponent
}

// In every layout zero comes first, each next word is greater by one in the last place, and the sign bit turns the sign.
pub fn words_count_up()
    ensures { WordsCountUp }
{}
