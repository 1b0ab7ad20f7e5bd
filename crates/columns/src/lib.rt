// How many columns a unit or a sheet has. A count is checked once, where it is made.
#![tactic(auto)]

ghost use Rattle.std.specs.Prelude.{◌≡◌, ◌≤◌};
ghost use Rattle.refusals.specs.Refusing.{Made};
ghost use Rattle.columns.specs.Columns.{columns_check};

use refusals::Refusal;

// The most columns there can be.
pub const MOST_COLUMNS: usize = 16;

// 1 to 16 columns. (Every number that is checked where it is made is a type of its own, here and in the crates above: of a
// generic one, the range, the refusal and the meaning would all be parameters.)
#[derive(Clone, Copy)]
pub struct Columns {
    count: u8,
    ghost some: { 1 ≤ count },
    ghost few: { count ≤ 16 },
}

impl Columns {
    pub fn new(count: usize) -> Result<Columns, Refusal>
        ensures { Made (columns_check count) (λ c. c.count ≡ count) result }
    {
        if count == 0 || count > MOST_COLUMNS {
            return Err(Refusal::ColumnCount);
        }
        Ok(Columns { count: count as u8 })
    }

    pub fn count(self) -> usize
        ensures { result ≡ self.count }
    {
        usize::from(self.count)
    }
}
