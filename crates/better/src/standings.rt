// What a bundle is ranked by: whether it is accepted, its claim, and how many processors run a task.
ghost use Rattle.std.specs.Prelude.{◌<◌, ◌≤◌, length};
ghost use Rattle.admission.specs.Fields.{Seen};
ghost use Rattle.stepping_machine.specs.Layout.{extent};
ghost use Rattle.better.specs.Parts.{RunsIs, RunnersIs, StandingIs};

use admission::view::View;
use checker::whole::finish;
use stepping_machine::settling::settle;
use stepping_machine::start::admit;
use stepping_machine::steps::counted;
use stepping_machine::{COUNT, FIRSTS, KINDS, LASTS};

// What an accepted bundle claims, and how many processors run a task.
#[derive(Clone, Copy)]
pub struct Standing {
    pub claim: usize,
    pub runners: usize,
}

// Whether the programme of processor k runs a task.
fn runs_task(w: &[u32], k: usize) -> bool
    requires { k < 4294967296 }
    ensures { RunsIs w.now k result }
{
    let first = workspace::total::word(w, FIRSTS + k);
    let end = workspace::total::word(w, LASTS + k);
    for i in first..end {
        if workspace::total::word(w, i) / KINDS == 1 {
            return true;
        }
    }
    false
}

// How many processors run a task.
fn runners(w: &[u32]) -> usize
    ensures { RunnersIs w.now result }
{
    let count = workspace::total::word(w, COUNT);
    let mut n = 0;
    for k in 0..count {
        n += counted(runs_task(w, k));
    }
    n
}

// 21 to 30 of a bundle, for a sheet seen by v; of one that passes, the claim and the processors that run a task.
pub fn judge(sheet: &[u8], bundle: &[u8], w: &mut [u32], v: View) -> Option<Standing>
    requires { Seen sheet.now v × (extent ≤ length w.old) }
    ensures { StandingIs sheet.now bundle.now w.old w.new v result }
{
    match admit(sheet, bundle, w, v) {
        Err(_) => None,
        Ok(outline) => {
            let claim = outline.claim as usize;
            settle(w);
            match finish(w, claim) {
                Err(_) => None,
                Ok(()) => Some(Standing {
                    claim,
                    runners: runners(w),
                }),
            }
        }
    }
}
