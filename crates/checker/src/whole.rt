// 29, 30, and the whole of 21 to 30.
ghost use Rattle.std.specs.Prelude.{◌≤◌, length};
ghost use Rattle.admission.specs.Fields.{Seen};
ghost use Rattle.admission.specs.Views.{Shown};
ghost use Rattle.stepping_machine.specs.Layout.{extent};
ghost use Rattle.checker.specs.Verdicts.{UnfinishedIs, LatestIs, FinishIs, JudgementIs, CheckIs};

use admission::view::View;
use refusals::{Fault, Refusal};
use stepping_machine::settling::settle;
use stepping_machine::start::admit;
use stepping_machine::{BOARD, CLOCKS, COUNT, LASTS};

// 29: the lowest processor with commands left.
fn unfinished(w: &[u32]) -> Option<usize>
    ensures { UnfinishedIs w.now result }
{
    let count = workspace::total::word(w, COUNT);
    for k in 0..count {
        if workspace::total::word(w, k) < workspace::total::word(w, LASTS + k) {
            return Some(k);
        }
    }
    None
}

// 30: the latest clock.
fn latest(w: &[u32]) -> usize
    ensures { LatestIs w.now result }
{
    let n = workspace::total::word(w, COUNT);
    let mut best: usize = 0;
    for k in 0..n {
        best = best.max(workspace::total::word(w, CLOCKS + k));
    }
    best
}

// 29, 30, or good.
pub fn finish(w: &[u32], claim: usize) -> Result<(), Refusal>
    ensures { FinishIs w.now claim result }
{
    match unfinished(w) {
        Some(k) => Err(Fault::Stuck.at(k)),
        None => {
            let clock = latest(w);
            if clock == claim {
                Ok(())
            } else {
                Err(Fault::WrongClaim.at(clock))
            }
        }
    }
}

// 21 to 30 of a bundle, for a sheet seen by v: it is run in the words in which it is loaded.
pub fn judgement(sheet: &[u8], bundle: &[u8], w: &mut [u32], v: View) -> Result<(), Refusal>
    requires { Seen sheet.now v × (extent ≤ length w.old) }
    ensures { JudgementIs sheet.now bundle.now w.old w.new v result }
{
    let outline = admit(sheet, bundle, w, v)?;
    settle(w);
    finish(w, outline.claim as usize)
}

// 21 to 30 of a bundle, for the sheet in the tables of the work area, whose bytes are given too. The words behind the board are used.
pub fn check(sheet: &[u8], bundle: &[u8], work: &mut [u32]) -> Result<(), Refusal>
    requires { Shown sheet.now work.old }
    ensures { CheckIs bundle.now work.old work.new result }
{
    let v = View::of_tables(work);
    judgement(sheet, bundle, &mut work[BOARD..], v)
}
