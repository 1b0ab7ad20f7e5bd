// What the bits of a packed byte say.
ghost use Rattle.std.specs.Prelude.{◌≡◌, ◌*◌, ◌<◌};
ghost use Rattle.sheets.specs.Packing.{bit, nibble, plane_term, signed};

// A code in two's complement, whose highest bit counts for `half`.
pub(crate) fn signed(code: u8, half: u8) -> i16
    requires { code < 2 * half }
    ensures { result ≡ signed half code }
{
    if code < half {
        i16::from(code)
    } else {
        i16::from(code) - 2 * i16::from(half)
    }
}

// The half of a byte that an even place or an odd one has.
pub(crate) fn nibble(byte: u8, place: usize) -> u8
    ensures small { result < 16 }
    ensures half { result ≡ nibble byte place }
{
    if place % 2 == 0 { byte % 16 } else { byte / 16 }
}

// Bit `index` of a byte, the lowest being bit 0.
pub(crate) fn bit(byte: u8, index: usize) -> u8
    requires { index < 8 }
    ensures { result ≡ bit byte index }
{
    (byte >> index) % 2
}

// What a bit counts for in the lowest plane: 1, or -1 where it is 0.
pub(crate) fn sign(bit: u8) -> i16
    requires { bit < 2 }
    ensures { result ≡ plane_term bit 0 }
{
    2 * i16::from(bit) - 1
}
