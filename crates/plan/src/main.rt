// The program: a job file comes on standard input, and the report goes to standard output.
#![tactic(auto)]

use std::io;
use std::io::{Cursor, Read};

// So many bytes are read, at most: no job file that is accepted is longer.
const MOST_BYTES: usize = 4096;

fn main(rt: HostRuntime) -> io::Result<()> {
    // fixed memory, and no vector that grows: what comes is asked for at once, so that nothing of it is lost where it comes in packets
    let mut file = Cursor::new([0; MOST_BYTES]);
    let _ = io::copy(&mut rt.stdin().take(MOST_BYTES as u64), &mut file)?;
    let length = file.position().min(MOST_BYTES as u64) as usize;
    let verdict = planner::solve(&file.get_ref()[..length]);
    rt.print(report::report(rt.alloc(), &verdict)?)
}
