// The whole search: a sheet is opened, all arrangements of its tasks are walked over, and the best bundle is written.
ghost use Rattle.std.specs.Prelude.{◌≤◌, length};
ghost use Rattle.workspace.specs.Area.{fixed};
ghost use Rattle.admission.specs.Fields.{Seen};
ghost use Rattle.stepping_machine.specs.Layout.{extent};
ghost use Rattle.search.specs.Laying.{Small};
ghost use Rattle.search.specs.Walking.{Ready};
ghost use Rattle.search.specs.Whole.{BestIs, SearchIs, LeastIs};

use crate::choosing::Best;
use crate::walk::walk;
use crate::walking::Begun;
use crate::writing::{ROOM, put_bundle};
use admission::view::View;
use levelling::open;
use refusals::{Fault, Refusal};
use stepping_machine::BOARD;

// The most tasks for which the least time is sought.
pub const MOST: usize = 6;

// The best of all arrangements, from one that has no task yet.
fn best_of(sheet: &[u8], w: &mut [u32], buf: &mut [u8], other: &mut [u8], v: View) -> Option<Best>
    requires { Ready sheet.now w.old buf.old other.old v }
    ensures { BestIs sheet.now v result }
{
    let empty = Begun {
        code: 0,
        tasks: 0,
        programmes: 0,
        own: 0,
        floor: 0,
        store: 0,
        work: 0,
    };
    walk(sheet, w, buf, other, v, v.tasks, empty, None)
}

// 11, or 12, or the bytes of the best bundle at the front of `out`.
fn search(sheet: &[u8], w: &mut [u32], v: View, out: &mut [u8]) -> Result<usize, Refusal>
    requires { Seen sheet.now v × Small v × (extent ≤ length w.old) }
    ensures { SearchIs sheet.now v out.old out.new result }
{
    let mut buf = [0u8; ROOM];
    let mut other = [0u8; ROOM];
    let Some(best) = best_of(sheet, w, &mut buf, &mut other, v) else {
        return Err(Fault::NoStore.at(v.tasks.saturating_sub(1)));
    };
    let n = put_bundle(sheet, &mut buf, v, best.code, v.tasks, best.claim);
    if out.len() < n {
        return Err(Fault::ShortOutput.at(n));
    }
    out[..n].copy_from_slice(&buf[..n]);
    Ok(n)
}

// The bundle of a sheet's least time at the front of `out`, or the first refusal, which changes nothing in `out`.
pub fn least(sheet: &[u8], work: &mut [u32], out: &mut [u8]) -> Result<usize, Refusal>
    requires { fixed ≤ length work.old }
    ensures { LeastIs sheet.now work.old work.new out.old out.new result }
{
    open::read(sheet, work)?;
    let v = View::of_tables(work);
    if v.cube || MOST < v.tasks {
        return Err(Fault::NotSmall.at(v.tasks));
    }
    search(sheet, &mut work[BOARD..], v, out)
}
