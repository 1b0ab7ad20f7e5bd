// A whole number times a power of two, rounded once to IEEE 754 binary32: nearest, a tie to the even significand, subnormals kept.
#![tactic(auto)]

ghost use Rattle.std.specs.Prelude.{◌≡◌, ◌+◌, ◌*◌, ◌^◌, ◌<◌, ◌≤◌, pos, ◌+ℤ◌, ◌≤ℤ◌, FitsSigned, from_bits};
ghost use Rattle.std.specs.Float.{binary32};
ghost use Rattle.std.specs.Float.Ieee.{down, size, up};
ghost use Rattle.std.specs.Int.{w32};
ghost use Rattle.rounding.specs.Nearest.{GivenBack, Nearest, Only};
ghost use Rattle.rounding.specs.Word.{last_place, nearest_whole, nearest_word, rounded, unsigned_word};

use std::cmp::Ordering;

// A significand has so many binary digits, the leading one counted.
const PRECISION: i64 = 24;
// A word writes so many of them: the leading one follows from the exponent's field.
const FRACTION_BITS: u32 = 23;
// The smallest positive value is 2 to this power.
const LOWEST: i64 = -149;
// The word of infinity: the exponent's field is all ones, the fraction 0.
const INFINITY: u64 = 0x7F80_0000;
// The sign bit alone.
const SIGN: u32 = 0x8000_0000;

// The word of `total` times 2 to the power `step`: the value's IEEE rounding, and so the one nearest word, which decodes
// to exactly the value where nothing needs rounding.
pub fn nearest_binary32(total: i64, step: i32) -> u32
    ensures value { result ≡ nearest_word total step }
    ensures read { from_bits binary32 result ≡ rounded total step }
    ensures nearest { Nearest total step result }
    ensures only { Only total step result }
    ensures given_back { GivenBack total step result }
{
    let rest = unsigned_word(total.unsigned_abs(), step);
    if total < 0 { SIGN + rest } else { rest }
}

// The word of `magnitude` times 2 to the power `step`, without its sign. (That it is at most 2^63, as two numbers below are
// on other scales, is no type: it would name nothing but the bound.)
fn unsigned_word(magnitude: u64, step: i32) -> u32
    requires { magnitude ≤ 2 ^ 63 }
    ensures value { result ≡ unsigned_word magnitude step }
    ensures bound { result ≤ 0x7F80_0000 }
{
    if magnitude == 0 {
        return 0;
    }
    let step = i64::from(step);
    let last = last_place(magnitude, step);
    let significand = nearest_scaled(magnitude, step - last);
    // The leading digit of a normal value adds one to the exponent's field, and so does a carry out of the significand.
    let word = ((last - LOWEST) as u64) * (1 << FRACTION_BITS) + significand;
    word.min(INFINITY) as u32
}

// Which power of two the last digit of the significand stands for: the highest one bit of the magnitude is its first digit,
// unless the last one would then stand for less than the smallest value.
fn last_place(magnitude: u64, step: i64) -> i64
    requires { (0 < magnitude) × (FitsSigned w32 step) }
    ensures { result ≡ last_place magnitude step }
{
    let digits = i64::from(u64::BITS - magnitude.leading_zeros());
    (step + digits - PRECISION).max(LOWEST)
}

// `n` times 2 to the power `power`, to the nearest whole number, a tie to the even one. The whole part has at most 24 digits.
fn nearest_scaled(n: u64, power: i64) -> u64
    requires some { 0 < n }
    requires most { n ≤ 2 ^ 63 }
    requires room { (pos (size n) +ℤ power) ≤ℤ pos 24 }
    ensures value { result ≡ nearest_whole (n * up power) (down power) }
    ensures bound { result ≤ 2 ^ 24 }
{
    if power < 0 {
        nearest_quotient(n, power.unsigned_abs())
    } else {
        n << power
    }
}

// `n` over 2 to the power `places`, to the nearest whole number, a tie to the even one.
fn nearest_quotient(n: u64, places: u64) -> u64
    requires { n ≤ 2 ^ 63 }
    ensures { result ≡ nearest_whole n (2 ^ places) }
{
    if places >= 64 {
        return 0;
    }
    let unit = 1u64 << places;
    let whole = n / unit;
    // Twice the rest is held against the unit, so that nothing is halved.
    let doubled = n % unit * 2;
    match doubled.cmp(&unit) {
        Ordering::Less => whole,
        Ordering::Equal => whole + whole % 2,
        Ordering::Greater => whole + 1,
    }
}

#[cfg(test)]
mod tests {
    use super::*;
    use formats::{Binary32, Format};

    #[test]
    fn ties_and_ends(rt: HostRuntime) {
        assert_eq!(rt; nearest_binary32((1 << 24) + 1, 0), 0x4B80_0000);
        assert_eq!(rt; nearest_binary32((1 << 24) + 3, 0), 0x4B80_0002);
        assert_eq!(rt; nearest_binary32((1 << 24) - 1, 104), 0x7F7F_FFFF);
        assert_eq!(rt; nearest_binary32(1 << 24, 104), 0x7F80_0000);
        assert_eq!(rt; nearest_binary32(1 << 11, -161), 0x0000_0000);
        assert_eq!(rt; nearest_binary32((1 << 11) + 1, -161), 0x0000_0001);
        assert_eq!(rt; nearest_binary32(3 << 11, -161), 0x0000_0002);
    }

    #[test]
    fn widest_arguments(rt: HostRuntime) {
        assert_eq!(rt; nearest_binary32(0, i32::MAX), 0x0000_0000);
        assert_eq!(rt; nearest_binary32(-1, i32::MIN), 0x8000_0000);
        assert_eq!(rt; nearest_binary32(-1, i32::MAX), 0xFF80_0000);
        assert_eq!(rt; nearest_binary32(i64::MIN, 0), 0xDF00_0000);
        assert_eq!(rt; nearest_binary32(1_051_651, -20), 0x3F80_6018);
    }

    #[test]
    fn decoding_gives_back(rt: HostRuntime) {
        let word = nearest_binary32(-3, -149);
        assert_eq!(rt; Binary32.decode(word), Some((-1, 3, -149)));
    }
}
