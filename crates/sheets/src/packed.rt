// A sheet of weights, however they are packed.
ghost use Rattle.std.specs.Prelude.{◌≡◌, ◌*◌, ⊤, length};
ghost use Rattle.refusals.specs.Refusing.{Made};
ghost use Rattle.sheets.specs.Code.{byte_length};
ghost use Rattle.sheets.specs.Making.{length_check};

use crate::Sheet;
use crate::any::AnyPacking;
use crate::code::SheetCode;
use crate::extent::Extent;
use crate::known::KnownSheet;
use crate::making::AnySheet;
use crate::packing::Packing;
use refusals::Refusal;
use std::alloc::AllocError;

// Bytes, as many as their places take.
pub struct Packed<'a, P: Packing> {
    packing: P,
    extent: Extent,
    bytes: &'a [u8],
    ghost whole: { length bytes.now ≡ byte_length (P.code packing) (extent.rows * extent.columns.count) },
}

// By hand and field by field: a derive is refused for a generic struct with a ghost field, and the borrow checker does
// not cover `*self` of one.
impl<'a, P: Packing> Clone for Packed<'a, P> {
    ghost is_clone = { λ s t. (t.packing ≡ s.packing) × (t.extent ≡ s.extent) × (t.bytes ≡ s.bytes) };

    ghost is_infallible = { λ _. ⊤ };

    fn clone(&self) -> Result<Self, AllocError> {
        Ok(Packed {
            packing: self.packing,
            extent: self.extent,
            bytes: self.bytes,
        })
    }
}

impl<'a, P: Packing> Copy for Packed<'a, P> {}

impl<'a, P: Packing> Packed<'a, P> {
    ghost use Rattle.sheets.specs.Any.{any_code};
    ghost use Rattle.sheets.specs.Meanings.{packed_meaning};

    // Refused where the bytes are not as many as the places take.
    pub(crate) fn over(packing: P, extent: Extent, bytes: &'a [u8]) -> Result<Self, Refusal>
        ensures { Made (length_check (P.code packing) (extent.rows * extent.columns.count) (length bytes.now)) (λ s. (s.packing ≡ packing) × (s.extent ≡ extent) × (s.bytes.now ≡ bytes.now)) result }
    {
        if bytes.len() != packing.code().bytes_for(extent.places()) {
            return Err(Refusal::ByteLength);
        }
        Ok(Packed {
            packing,
            extent,
            bytes,
        })
    }

    // How the weights are packed.
    pub fn code(&self) -> SheetCode
        ensures { result ≡ P.code self.now.packing }
    {
        self.packing.code()
    }

    // The same sheet, as one whose packing is known only when the program runs.
    pub fn into_any(self) -> AnySheet<'a>
        ensures code { any_code result.packing ≡ P.code self.entry.packing }
        ensures extent { result.extent ≡ self.entry.extent }
        ensures bytes { result.bytes ≡ self.entry.bytes }
        ensures meaning { packed_meaning result ≡ packed_meaning self.entry }
    {
        let Packed {
            packing,
            extent,
            bytes,
        } = self;
        Packed {
            packing: packing.any(),
            extent,
            bytes,
        }
    }

    // The same bytes, by another type for the packing that they have.
    fn as_packed<Q: Packing>(self, packing: Q) -> Packed<'a, Q>
        requires { Q.code packing ≡ P.code self.packing }
        ensures packing { result.packing ≡ packing }
        ensures extent { result.extent ≡ self.entry.extent }
        ensures bytes { result.bytes ≡ self.entry.bytes }
        ensures meaning { packed_meaning result ≡ packed_meaning self.entry }
    {
        let Packed {
            packing: _,
            extent,
            bytes,
        } = self;
        Packed {
            packing,
            extent,
            bytes,
        }
    }
}

impl<'a> Packed<'a, AnyPacking> {
    ghost use Rattle.sheets.specs.Any.{any_code};
    ghost use Rattle.sheets.specs.Known.{known_bytes, known_code, known_extent, known_meaning};
    ghost use Rattle.sheets.specs.Meanings.{any_meaning};

    // The same sheet, as one of the packing that it has.
    pub fn known(self) -> KnownSheet<'a>
        ensures code { known_code result ≡ any_code self.entry.packing }
        ensures extent { known_extent result ≡ self.entry.extent }
        ensures bytes { known_bytes result ≡ self.entry.bytes }
        ensures meaning { known_meaning result ≡ any_meaning self.entry }
    {
        match self.packing {
            AnyPacking::Byte(packing) => KnownSheet::Byte(self.as_packed(packing)),
            AnyPacking::Nibble(packing) => KnownSheet::Nibble(self.as_packed(packing)),
            AnyPacking::Planes(packing) => KnownSheet::Planes(self.as_packed(packing)),
        }
    }
}

impl<'a, P: Packing> Sheet for Packed<'a, P> {
    ghost use Rattle.sheets.specs.Lawful.{page_lawful};
    ghost use Rattle.sheets.specs.Meanings.{packed_meaning};

    ghost meaning = { packed_meaning };

    fn rows(&self) -> usize {
        self.extent.rows()
    }

    fn columns(&self) -> usize {
        self.extent.columns()
    }

    fn weight(&self, row: usize, column: usize) -> Result<i16, Refusal> {
        let place = self.extent.place(row, column)?;
        Ok(self.packing.weight(self.bytes, self.extent.places(), place))
    }

    // Not weight by weight: the packing is told apart once for the whole row.
    fn row(&self, row: usize, buffer: &mut [i16]) -> Result<(), Refusal> {
        let first = self.extent.place(row, 0)?;
        if buffer.len() != self.columns() {
            return Err(Refusal::WeightCount);
        }
        let places = self.extent.places();
        self.packing.weights(self.bytes, places, first, buffer);
        Ok(())
    }

    ghost lawful = { λ s. page_lawful (P.code s.packing) (P.few s.packing) s.extent.few_rows s.extent.columns.some s.extent.columns.few s.bytes.now };
}
