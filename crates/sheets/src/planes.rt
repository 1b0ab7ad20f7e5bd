// A bit to each plane of a weight.
ghost use Rattle.std.specs.Prelude.{◌≡◌, ◌+◌, ◌*◌, ◌/◌, ◌<◌, ◌≤◌, length};
ghost use Rattle.refusals.specs.Refusing.{Made};
ghost use Rattle.sheets.specs.declared.code.SheetCode.TheVariants.{Planes};
ghost use Rattle.sheets.specs.Making.{planes_check};
ghost use Rattle.sheets.specs.Packing.{bit_at, plane_sum, plane_term};

use crate::any::AnyPacking;
use crate::bits::{bit, sign};
use crate::code::SheetCode;
use crate::packing::Packing;
use refusals::Refusal;

// There are 1 to so many planes.
const MOST_PLANES: usize = 8;

// One plane after another, each with a byte for eight places, the lowest bit first.
#[derive(Clone, Copy)]
pub struct BitPlanes {
    count: u8,
    ghost some: { 1 ≤ count },
    ghost few: { count ≤ 8 },
}

impl BitPlanes {
    pub(crate) fn new(count: usize) -> Result<BitPlanes, Refusal>
        ensures { Made (planes_check (Planes count)) (λ p. p.count ≡ count) result }
    {
        if count == 0 || count > MOST_PLANES {
            return Err(Refusal::PlaneCount);
        }
        Ok(BitPlanes { count: count as u8 })
    }
}

impl Packing for BitPlanes {
    ghost code = { λ p. Planes p.count };

    fn code(self) -> SheetCode {
        SheetCode::Planes(self.count)
    }

    fn any(self) -> AnyPacking {
        AnyPacking::Planes(self)
    }

    fn weight(self, bytes: &[u8], places: usize, place: usize) -> i16 {
        plane_sum(bytes, places.div_ceil(8), place, usize::from(self.count))
    }

    ghost few = { λ p. p.few };
}

// What the bits of a place count for, over all planes: from the highest down, each doubles what those above it came to,
// and counts for 1 or -1 itself.
fn plane_sum(bytes: &[u8], stride: usize, place: usize, planes: usize) -> i16
    requires few { planes ≤ 8 }
    requires whole { length bytes.now ≡ planes * stride }
    requires inside { place / 8 < stride }
    ensures { result ≡ plane_sum bytes.now stride place planes }
{
    (0..planes).rev().fold(0, |sum, plane| {
        2 * sum + plane_part(bytes, stride, place, plane)
    })
}

// What the bit of a place in one plane counts for, were that the lowest.
fn plane_part(bytes: &[u8], stride: usize, place: usize, plane: usize) -> i16
    requires few { plane < 8 }
    requires inside { plane * stride + place / 8 < length bytes.now }
    ensures { result ≡ plane_term (bit_at bytes.now stride place plane) 0 }
{
    sign(bit(bytes[plane * stride + place / 8], place % 8))
}
