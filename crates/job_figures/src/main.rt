// A job of 300 rows and 16 columns, from standard input to its listing.
#![tactic(auto)]

use job_runs::job_text;
use std::io;
use std::io::Read;

// Two programs share this shape of `main`; each reads and prints for itself.
fn main(rt: HostRuntime) -> io::Result<()> {
    let mut file = Vec::new(rt.alloc());
    let _ = rt.stdin().read_to_end(&mut file)?;
    rt.print(job_text(rt.alloc(), file.as_slice())?)
}
