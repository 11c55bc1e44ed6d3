// The bundle of the schedule in the work area, as bytes.
#![tactic(auto)]

ghost use Rattle.std.specs.Prelude.{◌≡◌, not, ◌<◌, length};
ghost use Rattle.sheet.specs.Sheet.{task_count, link_count};
ghost use Rattle.sheet.specs.Tables.{sheet_in, Loaded};
ghost use Rattle.planner.specs.Schedule.{stands};
ghost use Rattle.schedule.specs.Layout.{schedule_in};
ghost use Rattle.plan_writer.specs.Bytes.{far_by};
ghost use Rattle.plan_writer.specs.Scheduled.{Scheduled};
ghost use Rattle.refusals.specs.Refusals.{WriteIs};
ghost use Rattle.plan_writer.specs.Written.{bundle_for};

mod measuring;
mod queues;
pub mod whole;
mod writing;

use adjacency::End;
use refusals::{Fault, Refusal};
use sheet::tables;

// The task at the other end of link l.
fn far_end(w: &[u32], e: End, l: usize) -> usize
    requires loaded { Loaded w.now }
    requires l_bound { l < link_count (sheet_in w.now) }
    ensures { (result ≡ far_by e (sheet_in w.now) l) × (result < task_count (sheet_in w.now)) }
{
    match e {
        End::Source => tables::target(w, l),
        End::Target => tables::source(w, l),
    }
}

// Link l leads to or from another processor than k.
fn is_away(w: &[u32], e: End, k: usize, l: usize) -> bool
    requires loaded { Loaded w.now }
    requires l_bound { l < link_count (sheet_in w.now) }
    ensures { result ≡ not (stands (schedule_in w.now) (far_by e (sheet_in w.now) l) k) }
{
    schedule::place(w, far_end(w, e, l)) != k
}

// The bundle of the schedule in the area, at the front of `out`; 12 with the length needed, and `out` as it was, where it is too long.
pub fn write(w: &[u32], out: &mut [u8]) -> Result<usize, Refusal>
    requires { Scheduled w.now }
    ensures { WriteIs (bundle_for (length out.old) (sheet_in w.now) (schedule_in w.now)) out.old out.new result }
{
    let need = measuring::of_bundle(w);
    if out.len() < need {
        return Err(Fault::ShortOutput.at(need));
    }
    writing::put_bundle(w, out);
    Ok(need)
}
