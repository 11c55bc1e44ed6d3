// One arrangement judged: its bundle is written with the claim 0 and put to the checker, which refuses an accepted one for its claim alone, and says which is right.
ghost use Rattle.std.specs.Prelude.{◌≤◌, length};
ghost use Rattle.admission.specs.Fields.{Seen};
ghost use Rattle.stepping_machine.specs.Layout.{extent};
ghost use Rattle.search.specs.Codes.{Coded};
ghost use Rattle.search.specs.Laying.{room, Small};
ghost use Rattle.search.specs.Judging.{JudgeIs};

use crate::writing::put_bundle;
use admission::view::View;
use checker::whole::judgement;

// Its claim, if it is accepted.
pub fn judge(sheet: &[u8], w: &mut [u32], buf: &mut [u8], v: View, code: usize) -> Option<usize>
    requires { Seen sheet.now v × Small v × (extent ≤ length w.old) × (room ≤ length buf.old) × Coded v.tasks code }
    ensures { JudgeIs sheet.now v code result }
{
    let n = put_bundle(sheet, buf, v, code, v.tasks, 0);
    match judgement(sheet, &buf[..n], w, v) {
        Ok(()) => Some(0),
        Err(refusal) => {
            if refusal.number == 30 {
                Some(refusal.place)
            } else {
                None
            }
        }
    }
}
