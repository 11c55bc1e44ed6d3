// Writes a bundle that is given by its values, two for each command: its byte and its operand.
ghost use Rattle.std.specs.Prelude.{◌≡◌, ◌++◌, ◌+◌, ◌<◌, ◌≤◌, length, drop, eqb, ltb};
ghost use Rattle.folds.specs.Folds.{pick, both};
ghost use Rattle.bundle.specs.Writing.{value_bytes};
ghost use Rattle.refusals.specs.Refusals.{number, fault_of};
ghost use Rattle.bundle_writer.specs.Writes.{Counted, WriteIs, RefusalIs, known_fault, open_fault, cut_number, Writable, PutIs};
ghost use Rattle.bundle_writer.specs.Judges.{Judges, NextIs};

use bundle::kinds::{is_message, is_task};
use bundle::{
    CLAIM_BYTE, CLAIM_SIZE, DISCARD_BYTE, LONG_SIZE, OPEN_BYTE, RECEIVE_BYTE, RELEASE_BYTE,
    RUN_BYTE, SEND_BYTE, SHORT_SIZE,
};
use bundle_reader::bytes::is_early;
use refusals::{Fault, Refusal};

// Where the next command stands, and how many programmes are open before it.
#[derive(Clone, Copy)]
pub struct Spot {
    pub at: usize,
    pub opened: usize,
}

// A command in a programme of this number, of which `limit` are declared: what refuses it, if anything does.
fn known_fault(operand: u16, opened: usize, limit: usize) -> Result<(), Fault>
    ensures { fault_of result ≡ known_fault limit opened operand }
{
    if opened == 0 {
        Err(Fault::BundleOutOfTurn)
    } else if limit <= operand as usize {
        Err(Fault::UnknownNumber)
    } else {
        Ok(())
    }
}

// A command that opens this processor's programme.
fn open_fault(operand: u16, opened: usize, processors: usize) -> Result<(), Fault>
    ensures { fault_of result ≡ open_fault processors opened operand }
{
    let k = operand as usize;
    if k != opened || processors <= k {
        Err(Fault::BundleOutOfTurn)
    } else {
        Ok(())
    }
}

// What refuses a command of a programme whose operand is missing.
fn cut_inside(opened: usize) -> Fault
    ensures { number result ≡ pick (eqb opened 0) 23 21 }
{
    if opened == 0 {
        Fault::BundleOutOfTurn
    } else {
        Fault::CutBundle
    }
}

// What refuses a claim whose operand is missing.
fn cut_claim(opened: usize, tasks: usize) -> Fault
    ensures { number result ≡ pick (both (ltb 0 tasks) (eqb opened 0)) 23 21 }
{
    if is_early(opened, tasks) {
        Fault::BundleOutOfTurn
    } else {
        Fault::CutBundle
    }
}

// What refuses any command whose operand is missing.
#[tactic(auto, unfolding(crate::specs::Writes::cut_number))]
fn cut_fault(command: u16, opened: usize, tasks: usize) -> Fault
    ensures { number result ≡ cut_number tasks opened command }
{
    match command {
        RUN_BYTE | SEND_BYTE | RECEIVE_BYTE | RELEASE_BYTE | DISCARD_BYTE => cut_inside(opened),
        OPEN_BYTE => Fault::CutBundle,
        CLAIM_BYTE => cut_claim(opened, tasks),
        _ => Fault::StrangeBundleCommand,
    }
}

// The command of the values at i, whose bytes stand at `at` behind so many open programmes: where the one behind it stands.
fn next_at(
    commands: &[u16],
    i: usize,
    spot: Spot,
    processors: usize,
    tasks: usize,
    links: usize,
) -> Result<Spot, Refusal>
    requires { Judges commands.now processors tasks links spot.opened spot.at i × (i + 1 < length commands.now) }
    ensures { NextIs commands.now processors tasks links i result }
{
    let c = commands[i];
    let x = commands[i + 1];
    let at = spot.at;
    let opened = spot.opened;
    if is_message(c) {
        refusals::at(known_fault(x, opened, links), at)?;
        Ok(Spot {
            at: at + LONG_SIZE,
            opened,
        })
    } else if is_task(c) {
        refusals::at(known_fault(x, opened, tasks), at)?;
        Ok(Spot {
            at: at + SHORT_SIZE,
            opened,
        })
    } else if c == OPEN_BYTE {
        refusals::at(open_fault(x, opened, processors), at)?;
        Ok(Spot {
            at: at + SHORT_SIZE,
            opened: opened + 1,
        })
    } else if c != CLAIM_BYTE {
        Err(Fault::StrangeBundleCommand.at(at))
    } else if is_early(opened, tasks) {
        Err(Fault::BundleOutOfTurn.at(at))
    } else {
        Err(Fault::BundleTail.at(at + CLAIM_SIZE))
    }
}

// What the reader would say of the bytes of these values, without the bytes: their number, or its refusal.
pub fn refusal(
    commands: &[u16],
    processors: usize,
    tasks: usize,
    links: usize,
) -> Result<usize, Refusal>
    ensures { RefusalIs commands.now processors tasks links result }
{
    let mut spot = Spot { at: 0, opened: 0 };
    for k in 0..commands.len() / 2 {
        spot = next_at(commands, 2 * k, spot, processors, tasks, links)?;
    }
    if commands.len() % 2 == 1 {
        let cut = commands[commands.len() - 1];
        Err(cut_fault(cut, spot.opened, tasks).at(spot.at))
    } else if is_early(spot.opened, tasks) {
        Err(Fault::BundleOutOfTurn.at(spot.at))
    } else {
        Ok(spot.at + CLAIM_SIZE)
    }
}

// Puts the command of these two values at `at`, and gives the offset behind it.
fn put_command(out: &mut [u8], at: usize, command: u16, operand: u16) -> usize
    requires { at + 3 ≤ length out.old }
    ensures { PutIs out.old out.new at command operand result }
{
    out[at] = (command % 256) as u8;
    if is_message(command) {
        numbers::put16(out, at + 1, operand);
        at + LONG_SIZE
    } else {
        out[at + 1] = (operand % 256) as u8;
        at + SHORT_SIZE
    }
}

// Puts the bytes of these values and of the claim at the front of `out`, and leaves what stands behind them.
pub fn put(commands: &[u16], claim: u32, out: &mut [u8])
    requires { Writable commands.now claim out.old }
    ensures { out.new ≡ value_bytes commands.now claim ++ drop (length (value_bytes commands.now claim)) out.old }
{
    let mut at: usize = 0;
    for j in 0..commands.len() / 2 {
        at = put_command(out, at, commands[2 * j], commands[2 * j + 1]);
    }
    out[at] = CLAIM_BYTE as u8;
    numbers::put32(out, at + 1, claim);
}

// Writes these values and the claim as a bundle for a sheet with these counts: the refusals, 12 last, change nothing.
pub fn write(
    commands: &[u16],
    claim: u32,
    processors: usize,
    tasks: usize,
    links: usize,
    out: &mut [u8],
) -> Result<usize, Refusal>
    requires { Counted processors tasks links }
    ensures { WriteIs commands.now claim processors tasks links out.old out.new result }
{
    let need = refusal(commands, processors, tasks, links)?;
    if out.len() < need {
        return Err(Fault::ShortOutput.at(need));
    }
    put(commands, claim, out);
    Ok(need)
}
