// The job program: reads a job from standard input, and prints the header of its listing, or by which number it is refused.
#![tactic(auto)]

ghost use Rattle.std.specs.Prelude.{IfOk, string_bytes};
ghost use Rattle.alignsum.specs.Printed.{Printed};

use jobs::{header, text_of};
use std::alloc::{AllocError, Global};
use std::io;
use std::io::Read;

// One byte more than the longest job has: of a longer file no more is read, and it is refused all the same.
const MOST_READ: u64 = 65_537;

// What is printed of a file.
fn answer(heap: Global, file: &[u8]) -> Result<String, AllocError>
    ensures { IfOk result (λ s. Printed file.now (string_bytes s)) }
{
    text_of(heap, header(heap, file))
}

// Two programs share this shape of `main`; each reads and prints for itself.
fn main(rt: HostRuntime) -> io::Result<()> {
    let mut file = Vec::new(rt.alloc());
    let _ = rt.stdin().take(MOST_READ).read_to_end(&mut file)?;
    rt.print(answer(rt.alloc(), file.as_slice())?)
}

#[cfg(test)]
mod tests {
    use super::*;
    use std::test::Fail;

    #[test]
    fn refused_by_its_number(rt: HostRuntime) -> Result<(), Fail> {
        assert_eq!(rt; answer(rt.alloc(), b"no job")?.as_str(), "refused 20\n");
        Ok(())
    }
}
