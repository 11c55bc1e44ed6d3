// Opens a sheet in the work area: its tables and its levels, from bytes or from values, with refusal 10 behind those of the form.
ghost use Rattle.std.specs.Prelude.{◌≤◌, length};
ghost use Rattle.folds.specs.Answers.{value, unless};
ghost use Rattle.workspace.specs.Area.{fixed};
ghost use Rattle.sheet.specs.Writing.{cube_of, value_bytes};
ghost use Rattle.sheet.specs.Tables.{sheet_in, Loaded};
ghost use Rattle.graph.specs.Graph.{circle, read_sheet};
ghost use Rattle.levelling.specs.Opened.{OpenIs};

use refusals::{Fault, Refusal};
use sheet_reader::values;

// Refusal 10 for a sheet that has the form, or its levels beside it.
fn level(w: &mut [u32]) -> Result<(), Refusal>
    requires { Loaded w.old }
    ensures { OpenIs (unless 10 (circle (sheet_in w.old)) (value (sheet_in w.old))) w.old w.new result }
{
    match crate::levels(w) {
        Some(t) => Err(Fault::Loop.at(t)),
        None => Ok(()),
    }
}

// Reads any bytes as a sheet: 1 to 10, or the sheet with its levels.
pub fn read(bytes: &[u8], w: &mut [u32]) -> Result<(), Refusal>
    requires { fixed ≤ length w.old }
    ensures { OpenIs (read_sheet bytes.now) w.old w.new result }
{
    sheet_reader::bytes::read(bytes, w)?;
    level(w)
}

// The same for the bytes that these values would have.
pub fn load(
    processors: u8,
    limit: u32,
    unpacking: u16,
    cube: u8,
    tasks: &[u16],
    links: &[u16],
    w: &mut [u32],
) -> Result<(), Refusal>
    requires { fixed ≤ length w.old }
    ensures { OpenIs (read_sheet (value_bytes processors limit unpacking (cube_of cube) tasks.now links.now)) w.old w.new result }
{
    values::load(processors, limit, unpacking, cube, tasks, links, w)?;
    level(w)
}
