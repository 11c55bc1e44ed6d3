// The answers of the planner, of the listing and of the search for the least time, behind the test of the work area.
ghost use Rattle.std.specs.Prelude.{◌≤◌, length};
ghost use Rattle.folds.specs.Answers.{and_then, fitting};
ghost use Rattle.workspace.specs.Area.{fixed};
ghost use Rattle.planner.specs.Planner.{plan};
ghost use Rattle.listing.specs.Listing.{listing};
ghost use Rattle.least.specs.Least.{least_bundle};
ghost use Rattle.entry_points.specs.Parts.{PartIs};

use refusals::Refusal;

// The bundle of a sheet's plan.
pub fn write(sheet: &[u8], work: &mut [u32], out: &mut [u8]) -> Result<usize, Refusal>
    requires { fixed ≤ length work.old }
    ensures { PartIs (and_then (plan sheet.now) (fitting (length out.old))) work.old work.new out.old out.new result }
{
    plan_writer::whole::plan(sheet, work, out)
}

// The listing of a sheet's plan, or of its refusal.
pub fn list(sheet: &[u8], work: &mut [u32], out: &mut [u8]) -> Result<usize, Refusal>
    requires { fixed ≤ length work.old }
    ensures { PartIs (fitting (length out.old) (listing sheet.now)) work.old work.new out.old out.new result }
{
    listing_writer::list(sheet, work, out)
}

// The bundle of a small sheet's least time.
pub fn least(sheet: &[u8], work: &mut [u32], out: &mut [u8]) -> Result<usize, Refusal>
    requires { fixed ≤ length work.old }
    ensures { PartIs (and_then (least_bundle sheet.now) (fitting (length out.old))) work.old work.new out.old out.new result }
{
    search::whole::least(sheet, work, out)
}
