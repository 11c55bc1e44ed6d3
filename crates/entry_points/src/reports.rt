// How far works may drift, behind the test of the work area.
ghost use Rattle.std.specs.Prelude.{◌≤◌, length};
ghost use Rattle.folds.specs.Answers.{and_then, fitting};
ghost use Rattle.workspace.specs.Area.{fixed};
ghost use Rattle.drift.specs.Reporting.{report};
ghost use Rattle.entry_points.specs.Parts.{PartIs};

use refusals::Refusal;

// Four bytes for each task of an accepted bundle: how far its work may grow.
pub fn drift(
    sheet: &[u8],
    bundle: &[u8],
    work: &mut [u32],
    out: &mut [u8],
) -> Result<usize, Refusal>
    requires { fixed ≤ length work.old }
    ensures { PartIs (and_then (report sheet.now bundle.now) (fitting (length out.old))) work.old work.new out.old out.new result }
{
    drift::reports::report(sheet, bundle, work, out)
}
