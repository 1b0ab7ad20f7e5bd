// The drain layer: lifts the row limit of the unit below by moving its totals up whenever it is full.
ghost use Rattle.std.specs.Prelude.{◌≡◌, ◌+◌, ◌≤◌, length};
ghost use Rattle.refusals.specs.Refusing.{verdict};
ghost use Rattle.units.specs.Meaning.{Bounded, reach, plus_each, add_check, after_add, cleared};

use columns::MOST_COLUMNS;
use refusals::Refusal;
use units::Unit;

// The rows that a drain has room for.
const LIMIT: u32 = 65_536;

#[derive(Drop)]
pub struct Drain<U: Unit> {
    below: U,
    // What was moved up: the rows, and a sum for each column that a unit may have. (A vector of as many as the one below has
    // would be one more length to keep equal.)
    rows: u32,
    sums: [i64; MOST_COLUMNS],
    ghost wide: { length sums ≡ 16 },
    ghost short: { rows + (U.Unit.meaning below).rows ≤ 65536 },
    ghost bounded: { Bounded (reach rows) sums },
}

// Adds the unit's totals to the sums.
fn move_up<U: Unit>(unit: &U, sums: &mut [i64; MOST_COLUMNS])
    requires { Bounded (reach 65536) sums.old }
    ensures { sums.new ≡ plus_each sums.old (U.Unit.meaning unit.now).totals }
{
    for (column, sum) in sums[..unit.columns()].iter_mut().enumerate() {
        *sum += unit.total(column).unwrap();
    }
}

impl<U: Unit> Drain<U> {
    ghost use Rattle.layers.specs.Drain.{DrainUnclamped, DrainSingle, drain_holds, drain_made, drain, fresh_drain, room_made};

    // A drain on the unit, which it clears.
    pub fn new(mut below: U) -> Self
        ensures made { drain_holds U.Unit result ≡ drain_made (U.Unit.meaning below) }
        ensures clears { U.Unit.meaning result.below ≡ cleared (U.Unit.meaning below) }
        ensures fresh { drain (drain_holds U.Unit result) ≡ fresh_drain (U.Unit.meaning below) }
        ensures unclamped { DrainUnclamped }
        ensures single { DrainSingle }
    {
        below.clear();
        Drain {
            below,
            rows: 0,
            sums: [0; MOST_COLUMNS],
        }
    }

    // The unit that the layer stands on.
    pub fn below(&self) -> &U
        ensures { result.now ≡ self.now.below }
    {
        &self.below
    }

    // Moves totals and rows up, and clears below, if the unit below is at its limit.
    fn make_room(&mut self)
        ensures { drain_holds U.Unit self.new ≡ room_made (drain_holds U.Unit self.old) }
    {
        if self.below.rows() == self.below.limit() {
            move_up(&self.below, &mut self.sums);
            self.rows += self.below.rows();
            self.below.clear();
        }
    }
}

impl<U: Unit> Unit for Drain<U> {
    ghost use Rattle.layers.specs.Drain.{drain_holds, drain, drain_add, drain_clear, drain_on};
    ghost use Rattle.layers.specs.Lawful.{drain_lawful};

    ghost meaning = { λ d. drain (drain_holds U.Unit d) };

    ghost lawful = { λ u. drain_lawful (drain_on (U.Unit.meaning u.below) u.rows u.sums) (U.Unit.lawful u.below) };

    fn columns(&self) -> usize {
        self.below.columns()
    }

    fn rows(&self) -> u32 {
        self.rows + self.below.rows()
    }

    fn limit(&self) -> u32 {
        LIMIT
    }

    fn takes(&self, weight: i16) -> bool {
        self.below.takes(weight)
    }

    fn total(&self, column: usize) -> Result<i64, Refusal> {
        let below = self.below.total(column)?;
        Ok(below + self.sums[column])
    }

    // Hands the row down as it came, after a move up if the unit below is full.
    fn add(&mut self, a: i64, weights: &[i16]) -> Result<(), Refusal>
        ensures answers { result ≡ verdict (add_check (drain (drain_holds U.Unit self.old)) a weights.now) }
        ensures grows { drain (drain_holds U.Unit self.new) ≡ after_add (drain (drain_holds U.Unit self.old)) a weights.now }
        ensures steps { drain_holds U.Unit self.new ≡ drain_add (drain_holds U.Unit self.old) a weights.now }
    {
        self.check(a, weights)?;
        self.make_room();
        self.below.add(a, weights)
    }

    fn clear(&mut self)
        ensures clears { drain (drain_holds U.Unit self.new) ≡ cleared (drain (drain_holds U.Unit self.old)) }
        ensures steps { drain_holds U.Unit self.new ≡ drain_clear (drain_holds U.Unit self.old) }
    {
        self.below.clear();
        self.rows = 0;
        self.sums = [0; MOST_COLUMNS];
    }
}
