// What a run tells of itself.
ghost use Rattle.std.specs.Prelude.{◌≡◌};

use crate::{AlignedRun, SurveyingRun};
use alignment::{SharedExponent, Step};
use formats::Format;
use units::Unit;

impl<F: Format, U: Unit> SurveyingRun<F, U> {
    // The shared exponent so far.
    pub fn shared(&self) -> SharedExponent
        ensures { result ≡ self.now.shared }
    {
        self.shared
    }
}

impl<F: Format, U: Unit> AlignedRun<F, U> {
    // What aligned numbers, totals and slacks count.
    pub fn step(&self) -> Step
        ensures { result ≡ self.now.step }
    {
        self.step
    }
}
