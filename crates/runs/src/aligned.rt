// The calls of a run whose step is settled, but for feed.
ghost use Rattle.std.specs.Prelude.{◌≡◌, IfOk, None};
ghost use Rattle.refusals.specs.Refusing.{answer};
ghost use Rattle.sums.specs.Terms.{exact};
ghost use Rattle.sums.specs.Laws.{Tells};
ghost use Rattle.units.specs.Meaning.{column_check, columns_of};
ghost use Rattle.rounding.specs.Nearest.{Nearest};
ghost use Rattle.runs.specs.State.{reading, restarted};
ghost use Rattle.runs.specs.Log.{Holds, Log, Logged, step as step_of_log, terms};
ghost use Rattle.runs.specs.Log as log;
ghost use Rattle.runs.specs.Runs.{aligned, surveying};

use crate::{AlignedRun, Reading, SurveyingRun};
use formats::Format;
use refusals::Refusal;
use rounding::nearest_binary32;
use units::Unit;

impl<F: Format, U: Unit> AlignedRun<F, U> {
    // The figures of a column.
    pub fn read(&self, column: usize) -> Result<Reading, Refusal>
        ensures answers { result ≡ answer (column_check (columns_of (U.Unit.meaning self.now.unit)) column) (reading (aligned F.Format.meaning U.Unit.meaning self.now) column) }
        ensures nearest { IfOk result (λ x. Nearest x.total x.exponent x.word) }
        ensures tells { IfOk result (λ x. (l : Log) → Holds l (aligned F.Format.meaning U.Unit.meaning self.now) → Tells (step_of_log l) x.total x.slack (exact (terms l column))) }
    {
        let total = self.unit.total(column)?;
        let exponent = self.step.exponent();
        Ok(Reading {
            total,
            slack: self.slacks[column],
            exponent,
            word: nearest_binary32(total, exponent),
        })
    }

    // Starts anew: a run as after opening, the unit cleared.
    pub fn clear(self) -> SurveyingRun<F, U>
        ensures format { result.format ≡ self.format }
        ensures clears { surveying F.Format.meaning U.Unit.meaning result ≡ restarted (aligned F.Format.meaning U.Unit.meaning self) }
        ensures logs { Logged log.clear (aligned F.Format.meaning U.Unit.meaning self) (surveying F.Format.meaning U.Unit.meaning result) None }
    {
        let AlignedRun {
            format,
            unit,
            step,
            rows: _,
            slacks: _,
        } = self;
        SurveyingRun::open(format, unit, step.extra)
    }
}
