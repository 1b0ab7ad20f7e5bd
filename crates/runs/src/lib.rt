// A run: words are surveyed for the exponent that they share, and then cut to whole steps and fed, with their weights, to
// a unit. Each state is a type: a call that the state does not allow cannot be written.
#![tactic(auto)]

ghost use Rattle.std.specs.Prelude.{◌≡◌, ℕ, ◌*◌, ◌≤◌, length, slice_index};

mod aligned;
mod feed;
mod questions;
mod surveying;

use alignment::{ExtraBits, SharedExponent, Step};
use columns::MOST_COLUMNS;

// A run whose shared exponent is still being found.
#[derive(Drop)]
pub struct SurveyingRun<F, U> {
    format: F,
    unit: U,
    extra: ExtraBits,
    shared: SharedExponent,
}

// A run whose step is settled, so that it can be fed and read.
#[derive(Drop)]
pub struct AlignedRun<F, U> {
    format: F,
    unit: U,
    step: Step,
    // The rows fed since opening or clear.
    rows: u32,
    // For each column that a unit may have, the most that cutting can have moved its total, in steps. (A vector of as many
    // as the unit has would be one more length to keep equal.)
    slacks: [u32; MOST_COLUMNS],
    ghost wide: { length slacks ≡ 16 },
    ghost short: { rows ≤ 65536 },
    ghost bounded: { (c : ℕ) → slice_index slacks c ≤ 255 * rows },
}

// What a column reads: its total and its slack in steps of 2^exponent, and total × step as a binary32 word.
#[derive(Clone, Copy, PartialEq, Eq, Debug)]
pub struct Reading {
    pub total: i64,
    pub slack: u32,
    pub exponent: i32,
    pub word: u32,
}
