// Runs many job files: each line of standard input is one, in hexadecimal, and its report is printed, with an empty line after it.
#![tactic(auto)]

ghost use Rattle.std.specs.Prelude.{◌<◌, ◌≤◌, length, IfOk};

use anyhow::anyhow;
use std::alloc::Global;

// So many bytes of a line are read, at most, as of a job file.
const MOST_BYTES: usize = 4096;

// By hand: the kit's `hex` takes capitals too, and refuses a last digit that has no other.
fn digit(byte: u8) -> anyhow::Result<u8>
    ensures { IfOk result (λ d. d < 16) }
{
    match byte {
        b'0'..=b'9' => Ok(byte - b'0'),
        b'a'..=b'f' => Ok(byte - b'a' + 10),
        _ => Err(anyhow!("no hexadecimal digit")),
    }
}

// Decodes as many pairs of hexadecimal digits of a line as the buffer has bytes; answers how many. A buffer and no vector: nothing is
// allocated for it.
fn decode(line: &str, file: &mut [u8]) -> anyhow::Result<usize>
    ensures { IfOk result (λ n. n ≤ length file.new) }
{
    let mut length = 0;
    for pair in line.as_bytes().chunks_exact(2).take(file.len()) {
        file[length] = digit(pair[0])? * 16 + digit(pair[1])?;
        length += 1;
    }
    Ok(length)
}

// The report of one job file.
fn answer(heap: Global, line: &str) -> anyhow::Result<String> {
    let mut file = [0; MOST_BYTES];
    let length = decode(line, &mut file)?;
    Ok(report::report(heap, &planner::solve(&file[..length]))?)
}

fn main(rt: HostRuntime) -> anyhow::Result<()> {
    let heap = rt.alloc();
    for line in rt.lines(heap) {
        let text = answer(heap, line?.as_str())?;
        println!(rt; "{text}")?;
    }
    Ok(())
}
