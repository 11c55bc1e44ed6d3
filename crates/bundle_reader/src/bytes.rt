// Reads any bytes as a bundle, in one pass, for a sheet of which only the counts matter.
ghost use Rattle.std.specs.Prelude.{◌≡◌, ◌+◌, ◌≤◌, ◌<◌, length, drop, eqb, ltb};
ghost use Rattle.folds.specs.Folds.{both};
ghost use Rattle.bundle.specs.Format.{opening, running, sending, claiming};
ghost use Rattle.commands.specs.Commands.{judge};
ghost use Rattle.refusals.specs.Refusals.{numbered, fault_of};
ghost use Rattle.bundle.specs.Sizes.{claim_size};
ghost use Rattle.bundle.specs.Counts.{fault_below, count_format};
ghost use Rattle.bundle_reader.specs.Answers.{closed_of, next_of};
ghost use Rattle.bundle_reader.specs.ReadIs.{ReadIs};

use bundle::kinds::{is_message, is_task};
use bundle::{CLAIM_BYTE, CLAIM_SIZE, LONG_SIZE, OPEN_BYTE, SHORT_SIZE};
use refusals::{Fault, Refusal};

// How many programmes a bundle has, how many commands stand in them, and the time that it claims.
#[derive(Clone, Copy)]
pub struct Outline {
    pub programmes: usize,
    pub commands: usize,
    pub claim: u32,
}

// The next command: one in a programme, with its length; one that opens a programme; or the claim.
#[derive(Clone, Copy)]
pub enum Next {
    Step(usize),
    Open,
    Claim,
}

// The command at `at` that opens a programme: what refuses it, if anything does.
fn open_at(bytes: &[u8], at: usize, opened: usize, processors: usize) -> Result<(), Fault>
    requires { at < length bytes.now }
    ensures { fault_of result ≡ fault_below processors opened opening (drop (at + 1) bytes.now) }
{
    if bytes.len() - (at + 1) < 1 {
        return Err(Fault::CutBundle);
    }
    let k = reader::get8(bytes, at + 1);
    if k != opened || processors <= k {
        Err(Fault::BundleOutOfTurn)
    } else {
        Ok(())
    }
}

// The command of a task at `at`.
fn task_at(bytes: &[u8], at: usize, opened: usize, tasks: usize) -> Result<(), Fault>
    requires { at < length bytes.now }
    ensures { fault_of result ≡ fault_below tasks opened running (drop (at + 1) bytes.now) }
{
    if opened == 0 {
        Err(Fault::BundleOutOfTurn)
    } else if bytes.len() - (at + 1) < 1 {
        Err(Fault::CutBundle)
    } else if tasks <= reader::get8(bytes, at + 1) {
        Err(Fault::UnknownNumber)
    } else {
        Ok(())
    }
}

// The command of a link at `at`.
fn message_at(bytes: &[u8], at: usize, opened: usize, links: usize) -> Result<(), Fault>
    requires { at < length bytes.now }
    ensures { fault_of result ≡ fault_below links opened sending (drop (at + 1) bytes.now) }
{
    if opened == 0 {
        Err(Fault::BundleOutOfTurn)
    } else if bytes.len() - (at + 1) < 2 {
        Err(Fault::CutBundle)
    } else if links <= reader::get16(bytes, at + 1) as usize {
        Err(Fault::UnknownNumber)
    } else {
        Ok(())
    }
}

// Whether a claim stands before the first programme, for a sheet that has tasks.
pub fn is_early(opened: usize, tasks: usize) -> bool
    ensures { result ≡ both (ltb 0 tasks) (eqb opened 0) }
{
    0 < tasks && opened == 0
}

// The claim at `at`.
fn claim_at(bytes: &[u8], at: usize, opened: usize, tasks: usize) -> Result<(), Fault>
    requires { at < length bytes.now }
    ensures { fault_of result ≡ fault_below tasks opened claiming (drop (at + 1) bytes.now) }
{
    if is_early(opened, tasks) {
        Err(Fault::BundleOutOfTurn)
    } else if bytes.len() - (at + 1) < 4 {
        Err(Fault::CutBundle)
    } else {
        Ok(())
    }
}

// What the claim at `at` closes.
fn closing(bytes: &[u8], at: usize, opened: usize, commands: usize) -> Result<Outline, Refusal>
    requires { at + claim_size ≤ length bytes.now }
    ensures { result ≡ closed_of bytes.now at opened commands }
{
    let past = at + CLAIM_SIZE;
    if past < bytes.len() {
        return Err(Fault::BundleTail.at(past));
    }
    Ok(Outline {
        programmes: opened,
        commands,
        claim: reader::get32(bytes, at + 1),
    })
}

// The command at `at`, behind so many programmes that are open; or what refuses it.
fn next_at(
    bytes: &[u8],
    at: usize,
    opened: usize,
    processors: usize,
    tasks: usize,
    links: usize,
) -> Result<Next, Fault>
    requires { at ≤ length bytes.now }
    ensures { numbered result ≡ next_of (judge (count_format processors tasks links) opened (drop at bytes.now)) }
{
    if bytes.len() <= at {
        return Err(Fault::CutBundle);
    }
    let c = reader::get8(bytes, at) as u16;
    if is_message(c) {
        message_at(bytes, at, opened, links)?;
        Ok(Next::Step(LONG_SIZE))
    } else if is_task(c) {
        task_at(bytes, at, opened, tasks)?;
        Ok(Next::Step(SHORT_SIZE))
    } else if c == OPEN_BYTE {
        open_at(bytes, at, opened, processors)?;
        Ok(Next::Open)
    } else if c == CLAIM_BYTE {
        claim_at(bytes, at, opened, tasks)?;
        Ok(Next::Claim)
    } else {
        Err(Fault::StrangeBundleCommand)
    }
}

// Reads bytes as a bundle for a sheet with these counts. Puts the offset of each command that opens a programme into the
// words, and behind them that of the claim.
pub fn read(
    bytes: &[u8],
    processors: usize,
    tasks: usize,
    links: usize,
    words: &mut [u32],
) -> Result<Outline, Refusal>
    requires { processors < length words.old }
    ensures { ReadIs bytes.now processors tasks links words.old words.new result }
{
    let mut at = 0;
    let mut opened = 0;
    let mut commands = 0;
    loop {
        let next = next_at(bytes, at, opened, processors, tasks, links);
        match refusals::at(next, at)? {
            Next::Step(size) => {
                commands += 1;
                at += size;
            }
            Next::Open => {
                words[opened] = (at % 4294967296) as u32;
                opened += 1;
                at += SHORT_SIZE;
            }
            Next::Claim => {
                words[opened] = (at % 4294967296) as u32;
                return closing(bytes, at, opened, commands);
            }
        }
    }
}
