// 21 to 26, 31 to 33 and 37: reads any bytes as a bundle and tries its tasks, messages and releases, for a sheet that is given by its view and its bytes.
ghost use Rattle.std.specs.Prelude.{◌≤◌, length};
ghost use Rattle.admission.specs.Notes.{slots_end};
ghost use Rattle.admission.specs.Admitted.{FreedIs, MessagesIs, RulesIs, JudgeIs};

use crate::notes::note_all;
use crate::releases::wrong_release;
use crate::rules::{not_once, wrong_message};
use crate::view::View;
use bundle_reader::bytes::Outline;
use refusals::{Fault, Refusal};

// 37, or a bundle of this outline. Where all commands were met as runs, sends and receives there is no release.
fn freed(
    sheet: &[u8],
    bundle: &[u8],
    w: &mut [u32],
    v: View,
    outline: Outline,
    met: usize,
) -> Result<Outline, Refusal>
    requires { slots_end ≤ length w.old }
    ensures { FreedIs sheet.now bundle.now w.old w.new v outline.programmes outline.commands outline.claim result met }
{
    if met == outline.commands {
        return Ok(outline);
    }
    match wrong_release(sheet, bundle, w, v) {
        Some(at) => Err(Fault::WrongRelease.at(at)),
        None => Ok(outline),
    }
}

// 31 to 33, then the rest.
fn messages(
    sheet: &[u8],
    bundle: &[u8],
    w: &mut [u32],
    v: View,
    outline: Outline,
    met: usize,
) -> Result<Outline, Refusal>
    requires { slots_end ≤ length w.old }
    ensures { MessagesIs sheet.now bundle.now w.old w.new v outline.programmes outline.commands outline.claim result met }
{
    wrong_message(sheet, w, v)?;
    freed(sheet, bundle, w, v, outline, met)
}

// 26, then the rest.
fn rules(
    sheet: &[u8],
    bundle: &[u8],
    w: &mut [u32],
    v: View,
    outline: Outline,
) -> Result<Outline, Refusal>
    requires { slots_end ≤ length w.old }
    ensures { RulesIs sheet.now bundle.now w.old w.new v outline.programmes outline.commands outline.claim result }
{
    let met = note_all(bundle, w, v.tasks, v.links);
    match not_once(w, v.tasks) {
        Some(t) => Err(Fault::RunCount.at(t)),
        None => messages(sheet, bundle, w, v, outline, met),
    }
}

// 21 to 26, 31 to 33 and 37 of a bundle. The offsets of the programmes are left in the words.
pub fn judge(sheet: &[u8], bundle: &[u8], w: &mut [u32], v: View) -> Result<Outline, Refusal>
    requires { slots_end ≤ length w.old }
    ensures { JudgeIs sheet.now bundle.now w.old w.new v result }
{
    let outline = bundle_reader::bytes::read(bundle, v.processors, v.tasks, v.links, w)?;
    rules(sheet, bundle, w, v, outline)
}
