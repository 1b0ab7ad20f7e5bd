// Lists of calls, worked in turn on a run that was just opened.
#![tactic(auto)]

mod error;
mod places;
mod working;

use alignment::ExtraBits;
pub use error::{Misplaced, WorkError};
use refusals::Refusal;
use runs::{AlignedRun, Reading, SurveyingRun};
pub use working::{work, work_both};

// What a run is opened with.
#[derive(Drop)]
pub struct Opening<F, U> {
    pub format: F,
    pub unit: U,
    pub extra: ExtraBits,
}

// A call that a run can be given, over lent words and a sheet. Calls are data and not closures, so that a list is checked
// before any of them is made.
#[derive(Clone, Copy)]
pub enum Call<'a, W, S> {
    Survey(&'a [W]),
    Fix,
    Feed(&'a [W], S),
    Read(usize),
    Clear,
}

// What a call answered: an accepted read its reading, every other accepted call nothing.
pub type Answer = Result<Option<Reading>, Refusal>;

// A run in either of its states.
#[derive(Drop)]
pub enum Run<F, U> {
    Surveying(SurveyingRun<F, U>),
    Aligned(AlignedRun<F, U>),
}

// A run after a list of calls, and what each of them answered.
#[derive(Drop)]
pub struct Worked<F, U> {
    pub run: Run<F, U>,
    pub answers: Vec<Answer>,
}
