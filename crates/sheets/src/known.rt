// A sheet whose packing was known only when the program ran, told apart.
use crate::making::{ByteSheet, NibbleSheet, PlaneSheet};

#[derive(Clone, Copy)]
pub enum KnownSheet<'a> {
    Byte(ByteSheet<'a>),
    Nibble(NibbleSheet<'a>),
    Planes(PlaneSheet<'a>),
}
