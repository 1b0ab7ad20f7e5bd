// Words out of bytes, the lowest byte first.
ghost use Rattle.std.specs.Prelude.{◌≡◌, ℕ, ◌+◌, ◌≤◌, List, length, take, drop, IfOk};
ghost use Rattle.jobs.specs.Words.{little, whole_words};
ghost use Rattle.std.proofs.Common.{lit≤};

use std::alloc::{AllocError, Global};

// A number of one, two or four bytes. (A trait of our own: `FromBytes` of the crate num_traits takes an array of the width
// and not a slice, and would be one crate more.)
pub trait Word: Copy {
    ghost SIZE: { ℕ };

    ghost spelled: { List ℕ → Self };

    // How many bytes a word has.
    const SIZE: usize;

    // The word that as many bytes spell.
    fn from_le(bytes: &[u8]) -> Self
        requires { length bytes.now ≡ SIZE }
        ensures { result ≡ spelled bytes.now };

    ghost some: { 1 ≤ SIZE };
}

impl Word for u8 {
    ghost SIZE = { 1 };

    ghost spelled = { little };

    ghost some = { lit≤ tt };

    const SIZE: usize = 1;

    fn from_le(bytes: &[u8]) -> u8 {
        bytes[0]
    }
}

impl Word for u16 {
    ghost SIZE = { 2 };

    ghost spelled = { little };

    ghost some = { lit≤ tt };

    const SIZE: usize = 2;

    fn from_le(bytes: &[u8]) -> u16 {
        u16::from_le_bytes([bytes[0], bytes[1]])
    }
}

impl Word for u32 {
    ghost SIZE = { 4 };

    ghost spelled = { little };

    ghost some = { lit≤ tt };

    const SIZE: usize = 4;

    fn from_le(bytes: &[u8]) -> u32 {
        u32::from_le_bytes([bytes[0], bytes[1], bytes[2], bytes[3]])
    }
}

// The word at a place.
pub(crate) fn word_at<W: Word>(bytes: &[u8], place: usize) -> W
    requires { place + W.Word.SIZE ≤ length bytes.now }
    ensures { result ≡ W.Word.spelled (take W.Word.SIZE (drop place bytes.now)) }
{
    W::from_le(&bytes[place..place + W::SIZE])
}

// The words that the bytes hold whole, in their order.
pub(crate) fn words_of<W: Word>(heap: Global, bytes: &[u8]) -> Result<Vec<W>, AllocError>
    ensures { IfOk result (λ v. v.items ≡ whole_words W.Word.SIZE W.Word.spelled bytes.now) }
{
    // A closure, since the borrow checker does not cover `map(W::from_le)`, whose result is a W.
    bytes
        .chunks_exact(W::SIZE)
        .map(|word| W::from_le(word))
        .collect(heap)
}
