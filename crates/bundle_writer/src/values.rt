// Copies the commands of a bundle as values, two for each: its byte and its operand.
ghost use Rattle.std.specs.Prelude.{◌≡◌, ◌+◌, ◌≤◌, ◌<◌, length};
ghost use Rattle.bundle_writer.specs.Writes.{Counted};
ghost use Rattle.bundle_writer.specs.Copies.{Copyable, CopyIs, ValuesIs, operand_in};

use bundle::CLAIM_SIZE;
use bundle::kinds::{is_message, size_of};
use bundle_reader::bytes::read;
use refusals::{Fault, Refusal};

// How many values a bundle has, and the time that it claims.
#[derive(Clone, Copy)]
pub struct Copied {
    pub values: usize,
    pub claim: u32,
}

// The operand of the command at `at`. Two bytes are there in any case, of which a task has the first.
fn operand_at(bytes: &[u8], at: usize) -> u16
    requires { at + 3 ≤ length bytes.now }
    ensures { result ≡ operand_in bytes.now at }
{
    let pair = numbers::get16(bytes, at + 1);
    if is_message(bytes[at] as u16) {
        pair
    } else {
        pair % 256
    }
}

// Puts the values of the bundle in these bytes at the front of `out`, and leaves what stands behind them.
pub fn copy(bytes: &[u8], out: &mut [u16])
    requires { Copyable bytes.now out.old }
    ensures { CopyIs bytes.now out.old out.new }
{
    let end = bytes.len() - CLAIM_SIZE;
    let mut at = 0;
    let mut i = 0;
    while at < end {
        let operand = operand_at(bytes, at);
        out[i] = bytes[at] as u16;
        out[i + 1] = operand;
        at += size_of(bytes[at] as u16);
        i += 2;
    }
}

// Reads bytes as a bundle for a sheet with these counts, and copies its values: the refusals, 12 last, change no value.
// The words are a work area, in which the programmes' offsets are left.
pub fn read_values(
    bytes: &[u8],
    processors: usize,
    tasks: usize,
    links: usize,
    words: &mut [u32],
    out: &mut [u16],
) -> Result<Copied, Refusal>
    requires { (processors < length words.old) × Counted processors tasks links }
    ensures { ValuesIs bytes.now processors tasks links out.old out.new words.old words.new result }
{
    let outline = read(bytes, processors, tasks, links, words)?;
    let values = 2 * (outline.programmes + outline.commands);
    if out.len() < values {
        return Err(Fault::ShortOutput.at(values));
    }
    copy(bytes, out);
    Ok(Copied {
        values,
        claim: outline.claim,
    })
}
