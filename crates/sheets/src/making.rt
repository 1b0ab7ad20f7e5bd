// The sheets of each packing, and how they are made.
ghost use Rattle.std.specs.Prelude.{◌≡◌, length};
ghost use Rattle.refusals.specs.Refusing.{Made};
ghost use Rattle.sheets.specs.declared.code.SheetCode.TheVariants.{Byte, Nibble, Planes};
ghost use Rattle.sheets.specs.Making.{making_check};
ghost use Rattle.sheets.specs.Meanings.{packed_meaning};
ghost use Rattle.sheets.specs.Packing.{page};

use crate::any::AnyPacking;
use crate::code::SheetCode;
use crate::extent::Extent;
use crate::packed::Packed;
use crate::packing::{Bytes, Nibbles};
use crate::planes::BitPlanes;
use refusals::Refusal;

// The names of the four, each with a `new` that says what it is made of; all of them go through `Packed::over`.
pub type ByteSheet<'a> = Packed<'a, Bytes>;

pub type NibbleSheet<'a> = Packed<'a, Nibbles>;

pub type PlaneSheet<'a> = Packed<'a, BitPlanes>;

// Its packing is known only when the program runs.
pub type AnySheet<'a> = Packed<'a, AnyPacking>;

impl<'a> Packed<'a, Bytes> {
    pub fn new(rows: usize, columns: usize, bytes: &'a [u8]) -> Result<ByteSheet<'a>, Refusal>
        ensures { Made (making_check Byte rows columns (length bytes.now)) (λ s. packed_meaning s ≡ page Byte rows columns bytes.now) result }
    {
        Packed::over(Bytes, Extent::new(rows, columns)?, bytes)
    }
}

impl<'a> Packed<'a, Nibbles> {
    pub fn new(rows: usize, columns: usize, bytes: &'a [u8]) -> Result<NibbleSheet<'a>, Refusal>
        ensures { Made (making_check Nibble rows columns (length bytes.now)) (λ s. packed_meaning s ≡ page Nibble rows columns bytes.now) result }
    {
        Packed::over(Nibbles, Extent::new(rows, columns)?, bytes)
    }
}

impl<'a> Packed<'a, BitPlanes> {
    pub fn new(
        rows: usize,
        columns: usize,
        planes: usize,
        bytes: &'a [u8],
    ) -> Result<PlaneSheet<'a>, Refusal>
        ensures { Made (making_check (Planes planes) rows columns (length bytes.now)) (λ s. packed_meaning s ≡ page (Planes planes) rows columns bytes.now) result }
    {
        let extent = Extent::new(rows, columns)?;
        Packed::over(BitPlanes::new(planes)?, extent, bytes)
    }
}

impl<'a> Packed<'a, AnyPacking> {
    // The sheet of these bytes, packed as the code says.
    pub fn new(
        code: SheetCode,
        rows: usize,
        columns: usize,
        bytes: &'a [u8],
    ) -> Result<AnySheet<'a>, Refusal>
        ensures { Made (making_check code rows columns (length bytes.now)) (λ s. packed_meaning s ≡ page code rows columns bytes.now) result }
    {
        let extent = Extent::new(rows, columns)?;
        Packed::over(AnyPacking::try_from(code)?, extent, bytes)
    }
}
