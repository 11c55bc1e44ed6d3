// The report: 1 to 10 of the sheet, 21 to 37 of the bundle, then 12, or four bytes for each task.
ghost use Rattle.std.specs.Prelude.{◌≡◌, ◌*◌, ◌≤◌, ◌<◌, length};
ghost use Rattle.numbers.specs.Number.{stored};
ghost use Rattle.workspace.specs.Area.{fixed};
ghost use Rattle.admission.specs.Fields.{Seen};
ghost use Rattle.stepping_machine.specs.Layout.{extent};
ghost use Rattle.drift.specs.Reporting.{slot_bytes, PutIs, AdmittedIs, PartIs, ReportIs};

use crate::recording::record;
use crate::tracing::trace;
use crate::{ENDS, STEPS};
use admission::view::View;
use checker::whole::finish;
use levelling::open;
use refusals::{Fault, Refusal};
use stepping_machine::BOARD;
use stepping_machine::start::admit;

// The first n slots, four bytes each.
fn put_slots(slots: &[u32], n: usize, out: &mut [u8])
    requires { (n ≤ length slots.now) × (4 * n ≤ length out.old) × (n ≤ 256) }
    ensures { out.new ≡ stored out.old 0 (slot_bytes slots.now n) }
{
    for t in 0..n {
        numbers::put32(out, 4 * t, slots[t]);
    }
}

// The report on n tasks of an accepted bundle, whose run is recorded.
fn put_report(
    w: &mut [u32],
    order: &[u8],
    slots: &mut [u32],
    steps: usize,
    n: usize,
    claim: usize,
    out: &mut [u8],
) -> Result<usize, Refusal>
    requires { (extent ≤ length w.old) × (n ≤ 256) × (256 ≤ length slots.old) }
    ensures { PutIs w.old order.now slots.old w.new steps n claim out.old out.new result }
{
    let need = 4 * n;
    if out.len() < need {
        return Err(Fault::ShortOutput.at(need));
    }
    trace(w, order, slots, steps, claim);
    put_slots(slots, n, out);
    Ok(need)
}

// The same of an admitted bundle, whose fresh state the words represent.
fn report_admitted(w: &mut [u32], n: usize, claim: usize, out: &mut [u8]) -> Result<usize, Refusal>
    requires { (extent ≤ length w.old) × (n ≤ 256) }
    ensures { AdmittedIs w.old w.new n claim out.old out.new result }
{
    let mut order: [u8; STEPS] = [0; STEPS];
    let mut slots: [u32; ENDS] = [0; ENDS];
    let steps = record(w, &mut order, &mut slots);
    finish(w, claim)?;
    put_report(w, &order, &mut slots, steps, n, claim, out)
}

// Any bytes, for a sheet seen by v.
fn report_seen(
    sheet: &[u8],
    bundle: &[u8],
    w: &mut [u32],
    v: View,
    out: &mut [u8],
) -> Result<usize, Refusal>
    requires { Seen sheet.now v × (extent ≤ length w.old) }
    ensures { PartIs sheet.now bundle.now w.old w.new v out.old out.new result }
{
    let outline = admit(sheet, bundle, w, v)?;
    report_admitted(w, v.tasks, outline.claim as usize, out)
}

// Any bytes of a sheet and of a bundle.
pub fn report(
    sheet: &[u8],
    bundle: &[u8],
    work: &mut [u32],
    out: &mut [u8],
) -> Result<usize, Refusal>
    requires { fixed ≤ length work.old }
    ensures { ReportIs sheet.now bundle.now work.old work.new out.old out.new result }
{
    open::read(sheet, work)?;
    let v = View::of_tables(work);
    report_seen(sheet, bundle, &mut work[BOARD..], v, out)
}
