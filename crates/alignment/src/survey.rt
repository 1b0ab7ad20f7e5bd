// The largest exponent of a tile.
ghost use Rattle.std.specs.Prelude.{◌≡◌};
ghost use Rattle.refusals.specs.Refusing.{answer, Made};
ghost use Rattle.alignment.specs.Tile.{tile_of, survey_check, largest, Largest};

use crate::TILE_WORDS;
use crate::checked::SharedExponent;
use formats::Format;
use refusals::Refusal;

impl SharedExponent {
    // Raised to the larger of itself and every exponent in the tile.
    pub fn survey<F: Format>(self, format: &F, words: &[F::Word]) -> Result<SharedExponent, Refusal>
        ensures made { Made (survey_check (tile_of (F.Format.meaning format.now) words.now)) (λ s. s.exponent ≡ largest self.exponent (tile_of (F.Format.meaning format.now) words.now)) result }
        ensures largest { Largest self.exponent (tile_of (F.Format.meaning format.now) words.now) (largest self.exponent (tile_of (F.Format.meaning format.now) words.now)) }
    {
        let exponent = survey_tile(format, self.exponent, words)?;
        Ok(SharedExponent { exponent })
    }
}

// The larger of `shared` and every exponent in the tile, up to the first word that is not finite.
fn survey_tile<F: Format>(format: &F, shared: i32, words: &[F::Word]) -> Result<i32, Refusal>
    ensures { result ≡ answer (survey_check (tile_of (F.Format.meaning format.now) words.now)) (largest shared (tile_of (F.Format.meaning format.now) words.now)) }
{
    if words.len() > TILE_WORDS {
        return Err(Refusal::TooManyWords);
    }
    let mut top = shared;
    // With the row, which a refusal names, and word by word, which is the rule for a survey.
    for (row, word) in words.iter().enumerate() {
        let Some((_, _, exponent)) = format.decode(*word) else {
            return Err(Refusal::NotFinite { row });
        };
        top = top.max(exponent);
    }
    Ok(top)
}
