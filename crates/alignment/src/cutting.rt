// Values cut to whole numbers of steps.
ghost use Rattle.std.specs.Prelude.{◌≡◌, ◌^◌, ◌<◌, All, map, ℤ, pos, neg_ℤ, ◌≤ℤ◌, Some, IfOk, unsigned_abs};
ghost use Rattle.refusals.specs.Refusing.{Made};
ghost use Rattle.alignment.specs.Tile.{tile_of};
ghost use Rattle.alignment.specs.Cutting.{step_size, word_check, cut_check, aligned, Small};

use crate::TILE_WORDS;
use crate::checked::{SharedExponent, Step};
use arrayvec::ArrayVec;
use formats::Format;
use refusals::Refusal;

// A whole number of steps, and whether cutting lost a part of a step. The number counts whether or not, so no enum of two
// cases holds it. That it is small is no ghost field: specs/ makes these values too, and would carry a proof in each.
#[derive(Clone, Copy, Debug, PartialEq, Eq, Default)]
pub struct Aligned {
    pub number: i64,
    pub lost: bool,
}

// The words of a tile in whole steps, each in its row. (Format and words are no one struct, here and in what follows: a
// run has the one for good, and each call brings the other.)
pub fn cut_tile<F: Format>(
    format: &F,
    words: &[F::Word],
    step: Step,
) -> Result<ArrayVec<Aligned, TILE_WORDS>, Refusal>
    ensures made { Made (cut_check step.shared.exponent (tile_of (F.Format.meaning format.now) words.now)) (λ v. v.items ≡ map (aligned (step_size step)) (tile_of (F.Format.meaning format.now) words.now)) result }
    ensures small { IfOk result (λ v. All Small v.items) }
{
    if words.len() > TILE_WORDS {
        return Err(Refusal::TooManyWords);
    }
    let mut cuts = ArrayVec::new();
    for (row, word) in words.iter().enumerate() {
        cuts.push(cut_row(format, *word, row, step)?);
    }
    Ok(cuts)
}

// The word of a row, decoded: it has to be finite, and its exponent not above the shared one.
pub fn lined_up<F: Format>(
    format: &F,
    word: F::Word,
    row: usize,
    shared: SharedExponent,
) -> Result<(i8, u32, i32), Refusal>
    ensures { Made (word_check shared.exponent row ((F.Format.meaning format.now).decode word)) (λ d. (F.Format.meaning format.now).decode word ≡ Some d) result }
{
    let Some(decoded) = format.decode(word) else {
        return Err(Refusal::NotFinite { row });
    };
    if decoded.2 > shared.exponent {
        return Err(Refusal::AboveShared { row });
    }
    Ok(decoded)
}

// The word of a row, cut.
fn cut_row<F: Format>(format: &F, word: F::Word, row: usize, step: Step) -> Result<Aligned, Refusal>
    ensures made { Made (word_check step.shared.exponent row ((F.Format.meaning format.now).decode word)) (λ a. a ≡ aligned (step_size step) ((F.Format.meaning format.now).decode word)) result }
    ensures small { IfOk result Small }
{
    let decoded = lined_up(format, word, row, step.shared)?;
    Ok(cut_value(decoded, step))
}

// The significand takes the extra bits, and loses as many as its exponent lies below the shared one.
fn cut_value(decoded: (i8, u32, i32), step: Step) -> Aligned
    requires sign { unsigned_abs decoded.0 ≡ 1 }
    requires significand { decoded.1 < 2 ^ 24 }
    requires low { neg_ℤ (pos 400) ≤ℤ decoded.2 }
    requires under { decoded.2 ≤ℤ step.shared.exponent }
    ensures value { result ≡ aligned (step_size step) (Some decoded) }
    ensures small { Small result }
{
    let (sign, significand, exponent) = decoded;
    let scaled = u64::from(significand) << step.extra.bits;
    // Nothing is left of 36 bits after 36 places.
    let places = step.shared.exponent.abs_diff(exponent).min(36);
    Aligned {
        number: i64::from(sign) * (scaled >> places) as i64,
        lost: scaled % (1 << places) != 0,
    }
}
