// How weights lie in bytes: a byte to each, or half a byte.
ghost use Rattle.std.specs.Prelude.{◌≡◌, ◌+◌, ◌<◌, ◌≤◌, length, map};
ghost use Rattle.std.specs.List.{range_with_len};
ghost use Rattle.sheets.specs.declared.code.SheetCode.{SheetCode};
ghost use Rattle.sheets.specs.declared.code.SheetCode.TheVariants.{Byte, Nibble};
ghost use Rattle.sheets.specs.Any.{any_code};
ghost use Rattle.sheets.specs.Code.{FewPlanes, byte_length};
ghost use Rattle.sheets.specs.Packing.{weight_at};

use crate::any::AnyPacking;
use crate::bits::{nibble, signed};
use crate::code::SheetCode;

// A way to pack weights.
pub trait Packing: Copy {
    ghost code: { Self → SheetCode };

    fn code(self) -> SheetCode
        ensures { result ≡ code self };

    // The same packing, as one of any.
    fn any(self) -> AnyPacking
        ensures { any_code result ≡ code self };

    // The weight of one of so many places.
    fn weight(self, bytes: &[u8], places: usize, place: usize) -> i16
        requires whole { length bytes.now ≡ byte_length (code self) places }
        requires inside { place < places }
        ensures { result ≡ weight_at (code self) places bytes.now place };

    // Writes the weights of places that follow one another, from one on. A packing of any kind is told apart once for all.
    fn weights(self, bytes: &[u8], places: usize, first: usize, buffer: &mut [i16])
        requires whole { length bytes.now ≡ byte_length (code self) places }
        requires inside { first + length buffer.old ≤ places }
        ensures { buffer.new ≡ map (λ k. weight_at (code self) places bytes.now (first + k)) (range_with_len 0 (length buffer.old)) }
    {
        for (k, weight) in buffer.iter_mut().enumerate() {
            *weight = self.weight(bytes, places, first + k);
        }
    }

    // There are at most 8 planes, where there are planes.
    ghost few: { (p : Self) → FewPlanes (code p) };
}

// Each byte is a weight in two's complement.
#[derive(Clone, Copy)]
pub struct Bytes;

impl Packing for Bytes {
    ghost code = { λ _. Byte };

    fn code(self) -> SheetCode {
        SheetCode::Byte
    }

    fn any(self) -> AnyPacking {
        AnyPacking::Byte(self)
    }

    fn weight(self, bytes: &[u8], _places: usize, place: usize) -> i16 {
        signed(bytes[place], 128)
    }

    ghost few = { λ _. tt };
}

// Two weights to a byte in two's complement, the even place in the lower half. Where the places are odd in number,
// the last upper half is not read.
#[derive(Clone, Copy)]
pub struct Nibbles;

impl Packing for Nibbles {
    ghost code = { λ _. Nibble };

    fn code(self) -> SheetCode {
        SheetCode::Nibble
    }

    fn any(self) -> AnyPacking {
        AnyPacking::Nibble(self)
    }

    fn weight(self, bytes: &[u8], _places: usize, place: usize) -> i16 {
        signed(nibble(bytes[place / 2], place), 8)
    }

    ghost few = { λ _. tt };
}
