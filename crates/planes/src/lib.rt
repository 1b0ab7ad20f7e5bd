// The plane unit: eight sums for each column, one for each power of two, to which it adds a or -a. So it needs no
// multiplier: an odd weight of -255 to 255 is a sum of the powers 1 to 128, each with + or -.
#![tactic(auto)]

ghost use Rattle.std.specs.Prelude.{◌≡◌, ◌*◌, ◌/◌, ◌^◌, ◌<◌, ◌≤◌, length, replicate, pos, unsigned_abs};
ghost use Rattle.columns.specs.Columns.{columns_check};
ghost use Rattle.refusals.specs.Refusing.{Made, verdict, unless};
ghost use Rattle.units.specs.Meaning.{Bounded, plus_each, add_check, after_add, cleared};
ghost use Rattle.planes.specs.Columns.{Eights, EachBounded, SignsWeigh, code, signed, signs, weigh, spread};

use arrayvec::ArrayVec;
use columns::{Columns, MOST_COLUMNS};
use refusals::Refusal;
use units::{Number, Row, Unit};

// The rows that a plane unit has room for.
const LIMIT: u32 = 64;

#[derive(Drop)]
pub struct Plane {
    rows: u32,
    sums: ArrayVec<[i64; 8], MOST_COLUMNS>,
    ghost some: { 1 ≤ length sums.items },
    ghost few: { length sums.items ≤ 16 },
    ghost eights: { Eights sums.items },
    ghost short: { rows ≤ 64 },
    ghost bounded: { EachBounded (rows * 2 ^ 36) sums.items },
}

// The eight bits of an odd weight: a 1 for a power of two that it has with +, a 0 for one with -.
fn code_of(weight: i16) -> u16
    requires { unsigned_abs weight ≤ 255 }
    ensures { result ≡ code weight }
{
    ((weight + 255) / 2) as u16
}

// The number where the power's bit is 1, else its opposite.
fn signed_by(number: Number, bits: u16, power: usize) -> i64
    requires { power < 8 }
    ensures { result ≡ signed number.value (bits / 2 ^ power) }
{
    if (bits >> power) % 2 == 1 {
        number.value
    } else {
        -number.value
    }
}

// The eight sums of a column with one row more.
fn with_row(mut sums: [i64; 8], number: Number, bits: u16) -> [i64; 8]
    requires { Bounded (64 * 2 ^ 36) sums }
    ensures { result ≡ plus_each sums (signs 8 number.value bits) }
{
    for (power, sum) in sums.iter_mut().enumerate() {
        *sum += signed_by(number, bits, power);
    }
    sums
}

// The total that a column's eight sums make.
fn weighed(sums: [i64; 8]) -> i64
    requires { Bounded (64 * 2 ^ 36) sums }
    ensures { result ≡ weigh sums }
{
    let mut total = 0;
    for sum in sums.iter().rev() {
        total = 2 * total + *sum;
    }
    total
}

// Adds a row to each column.
fn add_row(sums: &mut [[i64; 8]], row: Row<'_>)
    requires one_each { length row.weights.now ≡ length sums.old }
    requires bounded { EachBounded (64 * 2 ^ 36) sums.old }
    ensures { sums.new ≡ spread sums.old row.entry.number.value row.entry.weights.now }
{
    for (column, eight) in sums.iter_mut().enumerate() {
        *eight = with_row(*eight, row.number, code_of(row.weights[column]));
    }
}

impl Plane {
    ghost use Rattle.planes.specs.Plane.{plane, fresh_plane};

    pub fn new(columns: usize) -> Result<Plane, Refusal>
        ensures made { Made (columns_check columns) (λ u. plane u ≡ fresh_plane columns) result }
        ensures weighs { SignsWeigh }
    {
        let columns = Columns::new(columns)?;
        let mut sums = ArrayVec::from([[0; 8]; MOST_COLUMNS]);
        sums.truncate(columns.count());
        Ok(Plane { rows: 0, sums })
    }
}

// Not one struct with the multiplier unit: a column's sums, the weights that are taken and how a row grows a sum all differ,
// so that a trait over columns would have every line of both.
impl Unit for Plane {
    ghost use Rattle.planes.specs.Plane.{plane};
    ghost use Rattle.planes.specs.Lawful.{plane_lawful};

    ghost meaning = { plane };

    ghost lawful = { plane_lawful };

    fn columns(&self) -> usize {
        self.sums.len()
    }

    fn rows(&self) -> u32 {
        self.rows
    }

    fn limit(&self) -> u32 {
        LIMIT
    }

    fn takes(&self, weight: i16) -> bool {
        (-255..=255).contains(&weight) && weight % 2 != 0
    }

    fn total(&self, column: usize) -> Result<i64, Refusal> {
        self.sums
            .get(column)
            .map(|sums| weighed(*sums))
            .ok_or(Refusal::NoSuchColumn)
    }

    // Each of a column's eight sums grows by `a` or -`a`, as the weight's power has + or -.
    fn add(&mut self, a: i64, weights: &[i16]) -> Result<(), Refusal>
        ensures answers { result ≡ verdict (add_check (plane self.old) a weights.now) }
        ensures grows { plane self.new ≡ after_add (plane self.old) a weights.now }
        ensures spreads { self.new.sums.items ≡ unless (add_check (plane self.old) a weights.now) self.old.sums.items (spread self.old.sums.items a weights.now) }
    {
        let row = self.checked_row(a, weights)?;
        self.rows += 1;
        add_row(&mut self.sums, row);
        Ok(())
    }

    fn clear(&mut self)
        ensures clears { plane self.new ≡ cleared (plane self.old) }
        ensures empties { self.new.sums.items ≡ replicate (length self.old.sums.items) (replicate 8 (pos 0)) }
    {
        self.rows = 0;
        self.sums.fill([0; 8]);
    }
}
