// Lists the sheets of the trials on standard input, each behind its name. The input is a record for each trial: the name's length (u8), the
// name, the sheet's length (u16, lowest byte first), the sheet. A record that is cut ends the run. Where a read fails, nothing is listed; a read or a
// write that fails is the error that `main` returns.
#![tactic(auto)]

ghost use Rattle.std.specs.Prelude.{◌≡◌, ◌≤◌, ◌<◌, length, take, IfOk, Some};
ghost use Rattle.std.specs.Io.KnownBytes.{Consumes, IsAtEnd};
ghost use Rattle.trials.specs.Records.{record_at};

use std::io;
use std::io::Read;

// The ends of the name and of the sheet of the record at `at`, unless it is cut.
fn record_at(input: &[u8], at: usize) -> Option<(usize, usize)>
    requires { at < length input.now }
    ensures { result ≡ record_at input.now at }
{
    let name_end = at + 1 + usize::from(input[at]);
    if input.len() < name_end + 2 {
        return None;
    }
    let sheet_end = name_end + 2 + usize::from(numbers::get16(input, name_end));
    if input.len() < sheet_end {
        return None;
    }
    Some((name_end, sheet_end))
}

// Reads until the input ends or the buffer is full, however many pieces it comes in, and answers how many bytes that were: the first that the
// input had, and all of them where the buffer is not full.
fn read_full<R: Read>(input: &mut R, buf: &mut [u8]) -> io::Result<usize>
    ensures within { IfOk result (λ n. n ≤ length buf.new) }
    ensures bytes { IfOk result (λ n. Consumes (R.remaining input.old) (R.remaining input.new) (take n buf.new)) }
    ensures end { IfOk result (λ n. n < length buf.new → IsAtEnd (R.remaining input.new)) }
{
    let mut at = 0;
    while at < buf.len() {
        let n = input.read(&mut buf[at..])?;
        if n == 0 {
            break;
        }
        at += n;
    }
    Ok(at)
}

// Prints the listing of these bytes.
fn print_listing(rt: &impl Print, sheet: &[u8]) -> io::Result<()> {
    let mut out = [0u8; 21551];
    let n = console::put_listing(sheet, &mut out);
    rt.write_all(&out[..n])
}

// Prints the name and the listing of the record at `at`.
fn print_record(
    rt: &impl Print,
    input: &[u8],
    at: usize,
    name_end: usize,
    sheet_end: usize,
) -> io::Result<()>
    requires { record_at input.now at ≡ Some (name_end, sheet_end) }
{
    let name = at + 1;
    let sheet = name_end + 2;
    rt.write_all(&input[name..name_end])?;
    rt.write_all(b"\n")?;
    print_listing(rt, &input[sheet..sheet_end])
}

// Prints each record of the input, up to one that is cut.
fn print_records(rt: &impl Print, input: &[u8]) -> io::Result<()> {
    let mut at = 0;
    while at < input.len() {
        let Some((name_end, sheet_end)) = record_at(input, at) else {
            break;
        };
        print_record(rt, input, at, name_end, sheet_end)?;
        at = sheet_end;
    }
    Ok(())
}

// The trials take about 4 KB. Of an input longer than 16 KB, the records that are whole in its first 16,384 bytes are printed.
fn main(rt: HostRuntime) -> io::Result<()> {
    let mut input = [0u8; 16384];
    let n = read_full(&mut rt.stdin(), &mut input)?;
    print_records(&rt, &input[..n])
}
