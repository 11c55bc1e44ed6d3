// The checker of any bytes of a sheet and of a bundle.
ghost use Rattle.std.specs.Prelude.{◌≤◌, length};
ghost use Rattle.workspace.specs.Area.{fixed};
ghost use Rattle.checker.specs.Verdicts.{BytesIs};

use levelling::open;
use refusals::Refusal;

// 1 to 10 of the sheet, then 21 to 30 of the bundle.
pub fn check(sheet: &[u8], bundle: &[u8], work: &mut [u32]) -> Result<(), Refusal>
    requires { fixed ≤ length work.old }
    ensures { BytesIs sheet.now bundle.now work.old work.new result }
{
    open::read(sheet, work)?;
    crate::whole::check(sheet, bundle, work)
}
