// The machine's start: 21 to 26, 31 to 33, 37 and 28 of a bundle, or the fresh state.
ghost use Rattle.std.specs.Prelude.{◌+◌, ◌≤◌, length};
ghost use Rattle.workspace.specs.Area.{fixed};
ghost use Rattle.admission.specs.Fields.{Seen};
ghost use Rattle.admission.specs.Views.{Shown};
ghost use Rattle.stepping_machine.specs.Layout.{commands, extent};
ghost use Rattle.stepping_machine.specs.Starts.{AdmitIs, CopyIs, HandIs, BeginIs, OpenIs, BytesIs};

use crate::load::load;
use crate::{BOARD, COMMANDS, NEEDS, STAMPS};
use admission::view::View;
use bundle_reader::bytes::Outline;
use levelling::open;
use refusals::{Fault, Refusal};

// 21 to 26, 31 to 33, 37 and 28 of a bundle; where none applies, the words represent the fresh state.
pub fn admit(sheet: &[u8], bundle: &[u8], w: &mut [u32], v: View) -> Result<Outline, Refusal>
    requires { Seen sheet.now v × (extent ≤ length w.old) }
    ensures { AdmitIs sheet.now bundle.now w.old w.new v result }
{
    let outline = admission::judge::judge(sheet, bundle, w, v)?;
    match load(sheet, bundle, w, v, outline.programmes) {
        Some(k) => Err(Fault::OverStore.at(k)),
        None => Ok(outline),
    }
}

// The words from a up to e.
fn copy(from: &[u32], w: &mut [u32], a: usize, e: usize)
    requires { (a ≤ e) × (e ≤ length from.now) × (e ≤ length w.old) }
    ensures { CopyIs from.now w.old w.new a e }
{
    for i in a..e {
        w[i] = from[i];
    }
}

// The words of a machine with l links, n tasks and c commands and ends.
fn hand_over(from: &[u32], w: &mut [u32], l: usize, n: usize, c: usize)
    requires { (extent ≤ length from.now) × (extent ≤ length w.old) × (l ≤ 1024) × (n ≤ 256) × (commands + c ≤ extent) }
    ensures { HandIs from.now w.old w.new l n (commands + c) }
{
    copy(from, w, 0, STAMPS + l);
    copy(from, w, NEEDS, NEEDS + n);
    copy(from, w, COMMANDS, COMMANDS + c);
}

// The same in words of their own, which a refusal leaves alone.
fn begin(
    sheet: &[u8],
    bundle: &[u8],
    w: &mut [u32],
    state: &mut [u32],
    v: View,
) -> Result<Outline, Refusal>
    requires { Seen sheet.now v × (extent ≤ length w.old) × (extent ≤ length state.old) }
    ensures { BeginIs sheet.now bundle.now w.old w.new state.old state.new v result }
{
    let outline = admit(sheet, bundle, w, v)?;
    hand_over(
        w,
        state,
        v.links,
        v.tasks,
        outline.commands + outline.programmes,
    );
    Ok(outline)
}

// The same for the sheet in the tables of the work area, whose bytes are given too. The words behind the board are used.
fn from_tables(
    sheet: &[u8],
    bundle: &[u8],
    work: &mut [u32],
    state: &mut [u32],
) -> Result<Outline, Refusal>
    requires { Shown sheet.now work.old × (extent ≤ length state.old) }
    ensures { OpenIs sheet.now bundle.now work.old work.new state.old state.new result }
{
    let v = View::of_tables(work);
    begin(sheet, bundle, &mut work[BOARD..], state, v)
}

// 1 to 10, 21 to 26, 31 to 33, 37 and 28 of any bytes; where none applies, the fresh state.
pub fn start(
    sheet: &[u8],
    bundle: &[u8],
    work: &mut [u32],
    state: &mut [u32],
) -> Result<Outline, Refusal>
    requires { (fixed ≤ length work.old) × (extent ≤ length state.old) }
    ensures { BytesIs sheet.now bundle.now work.old work.new state.old state.new result }
{
    open::read(sheet, work)?;
    from_tables(sheet, bundle, work, state)
}
