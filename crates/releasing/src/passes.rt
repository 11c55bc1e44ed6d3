// The pass: 1 to 10 of the sheet, 21 to 37 of the bundle, then the bundle with its releases, or 12.
ghost use Rattle.std.specs.Prelude.{◌≤◌, ◌<◌, length};
ghost use Rattle.folds.specs.Answers.{fitting};
ghost use Rattle.workspace.specs.Area.{fixed};
ghost use Rattle.admission.specs.Fields.{Seen};
ghost use Rattle.admission.specs.Notes.{slots_end};
ghost use Rattle.stepping_machine.specs.Layout.{extent};
ghost use Rattle.releasing.specs.Queues.{Queues};
ghost use Rattle.refusals.specs.Refusals.{WriteIs};
ghost use Rattle.releasing.specs.Passing.{ReleasedIs, AcceptedIs, PassIs, ReleaseIs};

use crate::inserting::{has_release, insert};
use crate::laying::copy;
use crate::queueing::queue_all;
use admission::notes::note_all;
use admission::releases::keep_lasts;
use admission::view::View;
use checker::whole::judgement;
use levelling::open;
use refusals::{Fault, Refusal};
use stepping_machine::BOARD;

// A bundle as it is.
fn put_same(bundle: &[u8], out: &mut [u8]) -> Result<usize, Refusal>
    ensures { WriteIs (fitting (length out.old) bundle.now) out.old out.new result }
{
    if out.len() < bundle.len() {
        return Err(Fault::ShortOutput.at(bundle.len()));
    }
    Ok(copy(bundle, 0, bundle.len(), out, 0))
}

// A bundle without releases, with them. It is measured first, by laying it over a byte of our own.
fn put_released(bundle: &[u8], w: &[u32], out: &mut [u8]) -> Result<usize, Refusal>
    requires { Queues w.now × (length bundle.now < 4294967296) }
    ensures { ReleasedIs bundle.now w.now out.old out.new result }
{
    let mut own: [u8; 1] = [0; 1];
    let need = insert(bundle, w, &mut own);
    if out.len() < need {
        return Err(Fault::ShortOutput.at(need));
    }
    insert(bundle, w, out);
    Ok(need)
}

// An accepted bundle. One that has a release comes out as it went in.
fn pass_accepted(
    sheet: &[u8],
    bundle: &[u8],
    w: &mut [u32],
    v: View,
    out: &mut [u8],
) -> Result<usize, Refusal>
    requires { (slots_end ≤ length w.old) × (length bundle.now < 4294967296) }
    ensures { AcceptedIs sheet.now bundle.now w.old w.new v out.old out.new result }
{
    if has_release(bundle) {
        return put_same(bundle, out);
    }
    note_all(bundle, w, v.tasks, v.links);
    keep_lasts(sheet, w, v);
    queue_all(w, v.tasks, v.links);
    put_released(bundle, w, out)
}

// Any bytes, for a sheet seen by v.
fn pass(
    sheet: &[u8],
    bundle: &[u8],
    w: &mut [u32],
    v: View,
    out: &mut [u8],
) -> Result<usize, Refusal>
    requires { Seen sheet.now v × (extent ≤ length w.old) }
    ensures { PassIs sheet.now bundle.now w.old w.new v out.old out.new result }
{
    judgement(sheet, bundle, w, v)?;
    pass_accepted(sheet, bundle, w, v, out)
}

// Any bytes of a sheet and of a bundle.
pub fn release(
    sheet: &[u8],
    bundle: &[u8],
    work: &mut [u32],
    out: &mut [u8],
) -> Result<usize, Refusal>
    requires { fixed ≤ length work.old }
    ensures { ReleaseIs sheet.now bundle.now work.old work.new out.old out.new result }
{
    open::read(sheet, work)?;
    let v = View::of_tables(work);
    pass(sheet, bundle, &mut work[BOARD..], v, out)
}
