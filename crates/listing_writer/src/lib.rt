// The listing of a sheet's schedule, or of the refusal.
#![tactic(auto)]

ghost use Rattle.std.specs.Prelude.{◌≤◌, length};
ghost use Rattle.workspace.specs.Area.{fixed};
ghost use Rattle.sheet.specs.Tables.{sheet_in, Loaded};
ghost use Rattle.levelling.specs.Found.{Levelled};
ghost use Rattle.schedule.specs.Layout.{schedule_in};
ghost use Rattle.arrivals.specs.Kept.{Single};
ghost use Rattle.listing.specs.Listing.{refusal_line, schedule_lines};
ghost use Rattle.listing_writer.specs.Lines.{Standing, Stands};
ghost use Rattle.listing_writer.specs.Listed.{FitIs, ListIs, planned_lines};

use levelling::open;
use refusals::{Fault, Refusal};

mod fields;
mod rows;

// The listing of a refusal: its length, or 12.
fn list_refusal(refusal: Refusal, out: &mut [u8]) -> Result<usize, Refusal>
    ensures { FitIs (refusal_line refusal.number refusal.place) out.old out.new result }
{
    let number = refusal.number as usize;
    let place = refusal.place;
    let need = rows::refusal_length(number, place);
    if out.len() < need {
        return Err(Fault::ShortOutput.at(need));
    }
    rows::put_refusal(out, number, place);
    Ok(need)
}

// The listing of the schedule in the work area, counted before it is written.
fn list_counted(w: &[u32], out: &mut [u8]) -> Result<usize, Refusal>
    requires loaded { Loaded w.now }
    requires standing { Standing (sheet_in w.now) (schedule_in w.now) }
    ensures { FitIs (schedule_lines (sheet_in w.now) (schedule_in w.now)) out.old out.new result }
{
    let need = rows::needed(w);
    if out.len() < need {
        return Err(Fault::ShortOutput.at(need));
    }
    rows::put_schedule(w, out);
    Ok(need)
}

// The same, written at once where the output is surely long enough.
fn list_schedule(w: &[u32], out: &mut [u8]) -> Result<usize, Refusal>
    requires loaded { Loaded w.now }
    requires standing { Standing (sheet_in w.now) (schedule_in w.now) }
    ensures { FitIs (schedule_lines (sheet_in w.now) (schedule_in w.now)) out.old out.new result }
{
    if out.len() < rows::most(w) {
        return list_counted(w, out);
    }
    Ok(rows::put_schedule(w, out))
}

// The listing of the sheet in the work area, planned there.
fn list_planned(w: &mut [u32], out: &mut [u8]) -> Result<usize, Refusal>
    requires loaded { Loaded w.old }
    requires levelled { Levelled (sheet_in w.old) w.old }
    requires single { Single (sheet_in w.old) }
    requires stands { Stands (sheet_in w.old) }
    ensures { FitIs (planned_lines (sheet_in w.old)) out.old out.new result }
{
    match turns::schedule(w) {
        Err(refusal) => list_refusal(refusal, out),
        Ok(()) => list_schedule(w, out),
    }
}

// The listing of any bytes as a sheet. The work area is scratch, and keeps nothing that a caller may count on.
pub fn list(sheet: &[u8], work: &mut [u32], out: &mut [u8]) -> Result<usize, Refusal>
    requires { fixed ≤ length work.old }
    ensures { ListIs sheet.now work.old work.new out.old out.new result }
{
    match open::read(sheet, work) {
        Err(refusal) => list_refusal(refusal, out),
        Ok(()) => list_planned(work, out),
    }
}
