// The calls of a run that surveys.
ghost use Rattle.std.specs.Prelude.{◌≡◌, None};
ghost use Rattle.refusals.specs.Refusing.{verdict};
ghost use Rattle.alignment.specs.Tile.{survey_check, tile_of};
ghost use Rattle.runs.specs.Checks.{setting};
ghost use Rattle.runs.specs.State.{fixed, opened, surveyed};
ghost use Rattle.runs.specs.Log.{Holds, Logged, empty};
ghost use Rattle.runs.specs.Log as log;
ghost use Rattle.runs.specs.Runs.{aligned, surveying};

use crate::{AlignedRun, SurveyingRun};
use alignment::{ExtraBits, SharedExponent, Step};
use columns::MOST_COLUMNS;
use formats::Format;
use refusals::Refusal;
use units::Unit;

impl<F: Format, U: Unit> SurveyingRun<F, U> {
    // A run on the unit, which it clears. The shared exponent starts at the format's least.
    pub fn open(format: F, mut unit: U, extra: ExtraBits) -> Self
        ensures format { result.format ≡ format }
        ensures opens { surveying F.Format.meaning U.Unit.meaning result ≡ opened (F.Format.meaning format).least extra.bits (U.Unit.meaning unit) }
        ensures logs { Holds (empty (setting (F.Format.meaning format).least extra.bits (U.Unit.meaning unit))) (surveying F.Format.meaning U.Unit.meaning result) }
    {
        unit.clear();
        let shared = SharedExponent::least(&format);
        SurveyingRun {
            format,
            unit,
            extra,
            shared,
        }
    }

    // Raises the shared exponent to the larger of itself and every exponent in the tile.
    pub fn survey(&mut self, words: &[F::Word]) -> Result<(), Refusal>
        ensures answers { result ≡ verdict (survey_check (tile_of (F.Format.meaning self.old.format) words.now)) }
        ensures format { self.new.format ≡ self.old.format }
        ensures surveys { surveying F.Format.meaning U.Unit.meaning self.new ≡ surveyed (surveying F.Format.meaning U.Unit.meaning self.old) (tile_of (F.Format.meaning self.old.format) words.now) }
        ensures logs { Logged (log.survey (tile_of (F.Format.meaning self.old.format) words.now)) (surveying F.Format.meaning U.Unit.meaning self.old) (surveying F.Format.meaning U.Unit.meaning self.new) (survey_check (tile_of (F.Format.meaning self.old.format) words.now)) }
    {
        self.shared = self.shared.survey(&self.format, words)?;
        Ok(())
    }

    // Settles the step at the shared exponent.
    pub fn fix(self) -> AlignedRun<F, U>
        ensures format { result.format ≡ self.format }
        ensures fixes { aligned F.Format.meaning U.Unit.meaning result ≡ fixed (surveying F.Format.meaning U.Unit.meaning self) }
        ensures logs { Logged log.fix (surveying F.Format.meaning U.Unit.meaning self) (aligned F.Format.meaning U.Unit.meaning result) None }
    {
        let SurveyingRun {
            format,
            unit,
            extra,
            shared,
        } = self;
        let step = Step { shared, extra };
        AlignedRun {
            format,
            unit,
            step,
            rows: 0,
            slacks: [0; MOST_COLUMNS],
        }
    }
}
