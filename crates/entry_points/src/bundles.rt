// The bundle's side of the interface, behind the test of the work area.
ghost use Rattle.std.specs.Prelude.{◌≤◌, length};
ghost use Rattle.folds.specs.Answers.{value, and_then, fitting};
ghost use Rattle.workspace.specs.Area.{fixed};
ghost use Rattle.graph.specs.Graph.{read_sheet};
ghost use Rattle.bundle.specs.Format.{read_bundle};
ghost use Rattle.bundle.specs.Writing.{bundle_values, value_bytes};
ghost use Rattle.checker.specs.Checker.{check};
ghost use Rattle.releasing.specs.Passing.{pass};
ghost use Rattle.entry_points.specs.Values.{no_place};
ghost use Rattle.entry_points.specs.Parts.{EndIs, PartIs, BundleIs};

use bundle_writer::{values, writer};
use levelling::open;
use refusals::Refusal;
use sheet::tables;

// The values of a bundle.
pub fn read(
    sheet: &[u8],
    bundle: &[u8],
    work: &mut [u32],
    commands: &mut [u16],
    claim: &mut u32,
) -> Result<usize, Refusal>
    requires { fixed ≤ length work.old }
    ensures { BundleIs (and_then (read_sheet sheet.now) (λ s. and_then (read_bundle s bundle.now) (λ b. and_then (fitting (length commands.old) (bundle_values b)) (λ v. value b)))) work.old work.new commands.old commands.new claim.old claim.new result }
{
    open::read(sheet, work)?;
    let p = tables::processors(work);
    let t = tables::tasks(work);
    let l = tables::links(work);
    let copied = values::read_values(bundle, p, t, l, work, commands)?;
    *claim = copied.claim;
    Ok(copied.values)
}

// The bytes of a bundle that is given by its values.
pub fn write(
    sheet: &[u8],
    commands: &[u16],
    claim: u32,
    work: &mut [u32],
    out: &mut [u8],
) -> Result<usize, Refusal>
    requires { fixed ≤ length work.old }
    ensures { PartIs (and_then (read_sheet sheet.now) (λ s. and_then (read_bundle s (value_bytes commands.now claim)) (λ b. fitting (length out.old) (value_bytes commands.now claim)))) work.old work.new out.old out.new result }
{
    open::read(sheet, work)?;
    let p = tables::processors(work);
    let t = tables::tasks(work);
    let l = tables::links(work);
    writer::write(commands, claim, p, t, l, out)
}

// What the checker says of a bundle.
pub fn check(sheet: &[u8], bundle: &[u8], work: &mut [u32]) -> Result<usize, Refusal>
    requires { fixed ≤ length work.old }
    ensures { EndIs no_place (check sheet.now bundle.now) work.old work.new result }
{
    checker::bytes::check(sheet, bundle, work)?;
    Ok(0)
}

// The bytes of an accepted bundle with its releases.
pub fn release(
    sheet: &[u8],
    bundle: &[u8],
    work: &mut [u32],
    out: &mut [u8],
) -> Result<usize, Refusal>
    requires { fixed ≤ length work.old }
    ensures { PartIs (and_then (pass sheet.now bundle.now) (fitting (length out.old))) work.old work.new out.old out.new result }
{
    releasing::passes::release(sheet, bundle, work, out)
}
