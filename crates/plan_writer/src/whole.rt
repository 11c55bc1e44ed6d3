// The planner: a sheet is opened, scheduled, and its bundle written.
ghost use Rattle.std.specs.Prelude.{◌≤◌, length};
ghost use Rattle.workspace.specs.Area.{fixed};
ghost use Rattle.plan_writer.specs.Written.{plan_for, PlanIs};

use levelling::open;
use refusals::Refusal;

// The bundle of a sheet's plan at the front of `out`, or 1 to 12, which change nothing in `out`.
pub fn plan(sheet: &[u8], work: &mut [u32], out: &mut [u8]) -> Result<usize, Refusal>
    requires { fixed ≤ length work.old }
    ensures { PlanIs (plan_for (length out.old) sheet.now) work.old work.new out.old out.new result }
{
    open::read(sheet, work)?;
    turns::schedule(work)?;
    crate::write(work, out)
}
