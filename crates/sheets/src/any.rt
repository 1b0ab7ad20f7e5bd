// A packing that is known only when the program runs.
ghost use Rattle.refusals.specs.Refusing.{Made};
ghost use Rattle.std.specs.Prelude.{◌≡◌};
ghost use Rattle.sheets.specs.Any.{any_code};
ghost use Rattle.sheets.specs.Making.{planes_check};

use crate::code::SheetCode;
use crate::packing::{Bytes, Nibbles, Packing};
use crate::planes::BitPlanes;
use refusals::Refusal;

// A `SheetCode` beside it may have 0 or 200 planes: it names a packing, and this is one.
#[derive(Clone, Copy)]
pub enum AnyPacking {
    Byte(Bytes),
    Nibble(Nibbles),
    Planes(BitPlanes),
}

// Refused where there are no planes or more than 8.
impl TryFrom<SheetCode> for AnyPacking {
    type Error = Refusal;

    ghost try_from_gives = { λ code r. Made (planes_check code) (λ p. any_code p ≡ code) r };

    fn try_from(code: SheetCode) -> Result<Self, Refusal> {
        Ok(match code {
            SheetCode::Byte => AnyPacking::Byte(Bytes),
            SheetCode::Nibble => AnyPacking::Nibble(Nibbles),
            SheetCode::Planes(planes) => AnyPacking::Planes(BitPlanes::new(usize::from(planes))?),
        })
    }
}

impl Packing for AnyPacking {
    ghost use Rattle.sheets.specs.Lawful.{any_few};

    ghost code = { any_code };

    fn code(self) -> SheetCode {
        match self {
            AnyPacking::Byte(packing) => packing.code(),
            AnyPacking::Nibble(packing) => packing.code(),
            AnyPacking::Planes(packing) => packing.code(),
        }
    }

    fn any(self) -> AnyPacking {
        self
    }

    fn weight(self, bytes: &[u8], places: usize, place: usize) -> i16 {
        match self {
            AnyPacking::Byte(packing) => packing.weight(bytes, places, place),
            AnyPacking::Nibble(packing) => packing.weight(bytes, places, place),
            AnyPacking::Planes(packing) => packing.weight(bytes, places, place),
        }
    }

    fn weights(self, bytes: &[u8], places: usize, first: usize, buffer: &mut [i16]) {
        match self {
            AnyPacking::Byte(packing) => packing.weights(bytes, places, first, buffer),
            AnyPacking::Nibble(packing) => packing.weights(bytes, places, first, buffer),
            AnyPacking::Planes(packing) => packing.weights(bytes, places, first, buffer),
        }
    }

    ghost few = { any_few };
}
