// A unit sums activation × weight, column by column. This crate has what every unit does, and the multiplier unit.
#![tactic(auto)]

ghost use Rattle.std.specs.Prelude.{◌≡◌};
ghost use Rattle.refusals.specs.Refusing.{Made, verdict};
ghost use Rattle.units.specs.Meaning.{Meaning, Lawful, columns_of, add_check, after_add, cleared, first_untaken, total_at};

mod multiply;
mod row;

pub use multiply::Multiplier;
use refusals::Refusal;
pub use row::{Number, Row};

pub trait Unit {
    // What the unit holds and takes. Every call is told by this alone.
    ghost meaning: { Self → Meaning };

    // (Each unit and layer tells it of its own fields, so a line of it stands in each.)
    fn columns(&self) -> usize
        ensures { result ≡ columns_of (meaning self.now) };

    // How many rows were added since the unit was last cleared.
    fn rows(&self) -> u32
        ensures { result ≡ (meaning self.now).rows };

    // How many rows the unit has room for.
    fn limit(&self) -> u32
        ensures { result ≡ (meaning self.now).limit };

    fn takes(&self, weight: i16) -> bool
        ensures { result ≡ (meaning self.now).takes weight };

    fn total(&self, column: usize) -> Result<i64, Refusal>
        ensures { result ≡ total_at (meaning self.now) column };

    // The first column whose weight the unit does not take.
    fn untaken(&self, weights: &[i16]) -> Option<usize>
        ensures { result ≡ first_untaken (meaning self.now).takes weights.now }
    {
        weights.iter().position(|weight| !self.takes(*weight))
    }

    // What an add of this row would answer.
    fn check(&self, a: i64, weights: &[i16]) -> Result<(), Refusal>
        ensures { result ≡ verdict (add_check (meaning self.now) a weights.now) }
    {
        self.checked_row(a, weights)?;
        Ok(())
    }

    // The row, or what an add of it would be refused by.
    fn checked_row<'a>(&self, a: i64, weights: &'a [i16]) -> Result<Row<'a>, Refusal>
        ensures { Made (add_check (meaning self.now) a weights.now) (λ r. (r.number.value ≡ a) × (r.weights.now ≡ weights.now)) result }
    {
        if weights.len() != self.columns() {
            return Err(Refusal::WeightCount);
        }
        if self.rows() >= self.limit() {
            return Err(Refusal::RowLimit);
        }
        let number = Number::new(a)?;
        if let Some(column) = self.untaken(weights) {
            return Err(Refusal::WeightNotTaken { column });
        }
        Ok(Row { number, weights })
    }

    // Adds a row: each total grows by `a` × its weight.
    fn add(&mut self, a: i64, weights: &[i16]) -> Result<(), Refusal>
        ensures answers { result ≡ verdict (add_check (meaning self.old) a weights.now) }
        ensures grows { meaning self.new ≡ after_add (meaning self.old) a weights.now };

    // Sets the rows and the totals to 0.
    fn clear(&mut self)
        ensures clears { meaning self.new ≡ cleared (meaning self.old) };

    ghost lawful: { (u : Self) → Lawful (meaning u) };
}
