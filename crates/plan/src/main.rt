// The planning program: a problem on standard input, its answer on standard output.
#![tactic(auto)]

ghost use Rattle.std.specs.Prelude.{◌≤◌, length, IfOk};

use std::io;
use std::io::{Read, Write};

// Reads until the buffer is full or the input ends; gives how many bytes were read. How often that takes, the reader decides.
fn read_full<R: Read>(reader: &mut R, buf: &mut [u8]) -> io::Result<usize>
    ensures { IfOk result (λ n. n ≤ length buf.new) }
{
    let mut done = 0;
    while done < buf.len() {
        let n = reader.read(&mut buf[done..])?;
        if n == 0 {
            break;
        }
        done += n;
    }
    Ok(done)
}

// One byte more than the longest file that is not refused: whatever follows need not be read.
fn main(rt: HostRuntime) -> io::Result<()> {
    let mut text = [0u8; 1025];
    let n = read_full(&mut rt.stdin(), &mut text)?;
    let mut out = [0u8; 15376];
    let written = planner::plan_text(&text[..n], &mut out).unwrap_or(0);
    rt.stdout().write_all(&out[..written])
}
