// Lists the save on standard input. One byte more than a listed save may have is read, so that a longer one is seen.
#![tactic(auto)]

ghost use Rattle.std.specs.Prelude.{◌≤◌, IfOk, length};

use std::io;
use std::io::{Read, Write};

// Reads until b is full or the input ends, and answers how many bytes it put at the start of b.
// kept: `read_exact` does not tell how much there was, and `read_to_end` fills a Vec.
fn read_full<R: Read>(input: &mut R, b: &mut [u8]) -> io::Result<usize>
    ensures { IfOk result (λ n. n ≤ length b.new) }
{
    let mut done = 0;
    while done < b.len() {
        let n = input.read(&mut b[done..])?;
        if n == 0 {
            break;
        }
        done += n;
    }
    Ok(done)
}

fn main(rt: HostRuntime) -> io::Result<()> {
    let mut b = [0u8; lines::MOST_BYTES + 1];
    let mut out = [0u8; lines::ROOM];
    let n = read_full(&mut rt.stdin(), &mut b)?;
    let m = lines::list(&b[..n], &mut out);
    rt.stdout().write_all(&out[..m])
}
