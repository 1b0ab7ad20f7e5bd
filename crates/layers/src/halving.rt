// The odd layer: a unit that takes only odd weights takes every weight through it, since 2w + 1 is odd. As
// a × (2w + 1) is twice a × w, and a, a total below is twice the layer's and the sum of all aligned numbers.
ghost use Rattle.std.specs.Prelude.{◌≡◌, ◌*◌, ◌^◌, ◌≤◌, map, unsigned_abs};
ghost use Rattle.refusals.specs.Refusing.{verdict};
ghost use Rattle.units.specs.Meaning.{add_check, after_add, cleared};
ghost use Rattle.layers.specs.Halving.{odd_of};

use arrayvec::ArrayVec;
use columns::MOST_COLUMNS;
use refusals::Refusal;
use units::{Row, Unit};

// A unit that takes only odd weights takes every weight through this layer.
#[derive(Drop)]
pub struct Odd<U: Unit> {
    below: U,
    rows: u32,
    // The sum of all aligned numbers.
    sum: i64,
    ghost short: { rows ≤ (U.Unit.meaning below).limit },
    ghost bounded: { unsigned_abs sum ≤ rows * 2 ^ 36 },
}

// 2w + 1 for each weight w of the row.
fn doubled(row: Row<'_>) -> ArrayVec<i16, MOST_COLUMNS>
    ensures { result.items ≡ map odd_of row.entry.weights.now }
{
    let mut doubled = ArrayVec::new();
    for weight in row.weights {
        doubled.push(2 * *weight + 1);
    }
    doubled
}

// Hands a row down, with 2w + 1 for each weight w.
fn add_odd<U: Unit>(below: &mut U, row: Row<'_>) -> Result<(), Refusal>
    ensures answers { result ≡ verdict (add_check (U.Unit.meaning below.old) row.entry.number.value (map odd_of row.entry.weights.now)) }
    ensures grows { U.Unit.meaning below.new ≡ after_add (U.Unit.meaning below.old) row.entry.number.value (map odd_of row.entry.weights.now) }
{
    below.add(row.number.value, doubled(row).as_slice())
}

impl<U: Unit> Odd<U> {
    ghost use Rattle.layers.specs.Odd.{OddUnclamped, OddSingle, odd_holds, odd_made, odd, fresh_odd};

    // An odd layer on the unit, which it clears.
    pub fn new(mut below: U) -> Self
        ensures made { odd_holds U.Unit result ≡ odd_made (U.Unit.meaning below) }
        ensures clears { U.Unit.meaning result.below ≡ cleared (U.Unit.meaning below) }
        ensures fresh { odd (odd_holds U.Unit result) ≡ fresh_odd (U.Unit.meaning below) }
        ensures unclamped { OddUnclamped }
        ensures single { OddSingle }
    {
        below.clear();
        Odd {
            below,
            rows: 0,
            sum: 0,
        }
    }

    // The unit that the layer stands on.
    pub fn below(&self) -> &U
        ensures { result.now ≡ self.now.below }
    {
        &self.below
    }
}

impl<U: Unit> Unit for Odd<U> {
    ghost use Rattle.layers.specs.Odd.{odd_holds, odd, odd_add, odd_clear, odd_on};
    ghost use Rattle.layers.specs.Lawful.{odd_lawful};

    ghost meaning = { λ d. odd (odd_holds U.Unit d) };

    ghost lawful = { λ u. odd_lawful (odd_on (U.Unit.meaning u.below) u.rows u.sum) (U.Unit.lawful u.below) };

    fn columns(&self) -> usize {
        self.below.columns()
    }

    fn rows(&self) -> u32 {
        self.rows.max(self.below.rows())
    }

    fn limit(&self) -> u32 {
        self.below.limit()
    }

    fn takes(&self, weight: i16) -> bool {
        (-128..=127).contains(&weight) && self.below.takes(2 * weight + 1)
    }

    fn total(&self, column: usize) -> Result<i64, Refusal> {
        let below = self.below.total(column)?;
        Ok((below - self.sum) >> 1)
    }

    // Hands the row down with 2w + 1 for each weight w.
    fn add(&mut self, a: i64, weights: &[i16]) -> Result<(), Refusal>
        ensures answers { result ≡ verdict (add_check (odd (odd_holds U.Unit self.old)) a weights.now) }
        ensures grows { odd (odd_holds U.Unit self.new) ≡ after_add (odd (odd_holds U.Unit self.old)) a weights.now }
        ensures steps { odd_holds U.Unit self.new ≡ odd_add (odd_holds U.Unit self.old) a weights.now }
    {
        let row = self.checked_row(a, weights)?;
        self.rows += 1;
        self.sum += a;
        add_odd(&mut self.below, row)
    }

    fn clear(&mut self)
        ensures clears { odd (odd_holds U.Unit self.new) ≡ cleared (odd (odd_holds U.Unit self.old)) }
        ensures steps { odd_holds U.Unit self.new ≡ odd_clear (odd_holds U.Unit self.old) }
    {
        self.below.clear();
        self.rows = 0;
        self.sum = 0;
    }
}
