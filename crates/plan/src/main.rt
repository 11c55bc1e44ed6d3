// Lists the schedule of the sheet on standard input, or its refusal. Of a longer input the first 8,512 bytes settle the answer
// (crates/listing_writer/proofs/Settled.antt). Where a read fails, nothing is listed; a read or a write that fails is the error that `main` returns.
#![tactic(auto)]

ghost use Rattle.std.specs.Prelude.{◌≤◌, ◌<◌, length, take, IfOk};
ghost use Rattle.std.specs.Io.KnownBytes.{Consumes, IsAtEnd};

use std::io;
use std::io::Read;

// Reads until the input ends or the buffer is full, however many pieces it comes in, and answers how many bytes that were: the first that the
// input had, and all of them where the buffer is not full.
fn read_all<R: Read>(input: &mut R, buf: &mut [u8]) -> io::Result<usize>
    ensures within { IfOk result (λ n. n ≤ length buf.new) }
    ensures bytes { IfOk result (λ n. Consumes (R.remaining input.old) (R.remaining input.new) (take n buf.new)) }
    ensures end { IfOk result (λ n. n < length buf.new → IsAtEnd (R.remaining input.new)) }
{
    let mut at = 0;
    while at < buf.len() {
        let n = input.read(&mut buf[at..])?;
        if n == 0 {
            break;
        }
        at += n;
    }
    Ok(at)
}

// Prints the listing of these bytes.
fn print_listing(rt: &impl Print, sheet: &[u8]) -> io::Result<()> {
    let mut out = [0u8; 21551];
    let n = console::put_listing(sheet, &mut out);
    rt.write_all(&out[..n])
}

fn main(rt: HostRuntime) -> io::Result<()> {
    let mut sheet = [0u8; 8512];
    let n = read_all(&mut rt.stdin(), &mut sheet)?;
    print_listing(&rt, &sheet[..n])
}
