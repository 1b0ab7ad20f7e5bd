// The multiplier unit: one sum for each column, to which it adds each product.
ghost use Rattle.std.specs.Prelude.{◌≡◌, ◌≤◌, length, ◌+ℤ◌, ◌*ℤ◌, unsigned_abs};
ghost use Rattle.columns.specs.Columns.{columns_check};
ghost use Rattle.refusals.specs.Refusing.{Made};
ghost use Rattle.units.specs.Meaning.{Bounded, reach, grown};

use crate::Unit;
use crate::row::{Number, Row};
use arrayvec::ArrayVec;
use columns::{Columns, MOST_COLUMNS};
use refusals::Refusal;

// The rows that a multiplier has room for.
const LIMIT: u32 = 128;

#[derive(Drop)]
pub struct Multiplier {
    rows: u32,
    sums: ArrayVec<i64, MOST_COLUMNS>,
    ghost some: { 1 ≤ length sums.items },
    ghost few: { length sums.items ≤ 16 },
    ghost short: { rows ≤ 128 },
    ghost bounded: { Bounded (reach rows) sums.items },
}

// A sum with one product more.
fn raised(sum: i64, number: Number, weight: i16) -> i64
    requires bounded { unsigned_abs sum ≤ reach 65536 }
    requires light { unsigned_abs weight ≤ 255 }
    ensures { result ≡ sum +ℤ number.value *ℤ weight }
{
    sum + number.value * i64::from(weight)
}

// Grows each sum by the number × its weight.
fn grow(sums: &mut [i64], row: Row<'_>)
    requires one_each { length row.weights.now ≡ length sums.old }
    requires bounded { Bounded (reach 65536) sums.old }
    ensures { sums.new ≡ grown sums.old row.entry.number.value row.entry.weights.now }
{
    for (column, sum) in sums.iter_mut().enumerate() {
        *sum = raised(*sum, row.number, row.weights[column]);
    }
}

impl Multiplier {
    ghost use Rattle.units.specs.Multiplier.{multiplier, fresh_multiplier};

    pub fn new(columns: usize) -> Result<Multiplier, Refusal>
        ensures { Made (columns_check columns) (λ u. multiplier u ≡ fresh_multiplier columns) result }
    {
        let columns = Columns::new(columns)?;
        let mut sums = ArrayVec::from([0; MOST_COLUMNS]);
        sums.truncate(columns.count());
        Ok(Multiplier { rows: 0, sums })
    }
}

// Not one struct with the plane unit: a column's sums, the weights that are taken and how a row grows a sum all differ, so
// that a trait over columns would have every line of both.
impl Unit for Multiplier {
    ghost use Rattle.units.specs.Multiplier.{multiplier};
    ghost use Rattle.units.specs.Lawful.{multiplier_lawful};

    ghost meaning = { multiplier };

    ghost lawful = { multiplier_lawful };

    fn columns(&self) -> usize {
        self.sums.len()
    }

    fn rows(&self) -> u32 {
        self.rows
    }

    fn limit(&self) -> u32 {
        LIMIT
    }

    fn takes(&self, weight: i16) -> bool {
        (-255..=255).contains(&weight)
    }

    fn total(&self, column: usize) -> Result<i64, Refusal> {
        self.sums.get(column).copied().ok_or(Refusal::NoSuchColumn)
    }

    fn add(&mut self, a: i64, weights: &[i16]) -> Result<(), Refusal> {
        let row = self.checked_row(a, weights)?;
        self.rows += 1;
        grow(&mut self.sums, row);
        Ok(())
    }

    fn clear(&mut self) {
        self.rows = 0;
        self.sums.fill(0);
    }
}
