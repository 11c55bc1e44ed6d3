// The better of two arrangements, and the best so far.
ghost use Rattle.std.specs.Prelude.{true, ◌≡◌, [], ◌∷◌, ◌≤◌, length};
ghost use Rattle.admission.specs.Fields.{Seen};
ghost use Rattle.stepping_machine.specs.Layout.{extent};
ghost use Rattle.search.specs.Codes.{arranged, opens_of, Coded};
ghost use Rattle.search.specs.Laying.{room, Small};
ghost use Rattle.search.specs.Keeping.{Right, OrderIs, ChoiceIs, FoldIs};

use crate::judging::judge;
use crate::writing::put_bundle;
use admission::view::View;
use std::cmp::Ordering;

// The best of the arrangements that were accepted so far, with its claim and how many programmes it has.
#[derive(Clone, Copy)]
pub struct Best {
    pub claim: usize,
    pub programmes: usize,
    pub code: usize,
}

// C-12's order of two that were found. Their bundles are written only where claims and programmes tell nothing.
fn order_of(sheet: &[u8], buf: &mut [u8], other: &mut [u8], v: View, a: Best, b: Best) -> Ordering
    requires { Small v × (room ≤ length buf.old) × (room ≤ length other.old) × Coded v.tasks a.code × Coded v.tasks b.code }
    ensures { OrderIs sheet.now v a b result }
{
    let programmes = a.programmes.cmp(&b.programmes);
    match a.claim.cmp(&b.claim).then(programmes) {
        Ordering::Less => Ordering::Less,
        Ordering::Greater => Ordering::Greater,
        Ordering::Equal => {
            let n = put_bundle(sheet, buf, v, a.code, v.tasks, a.claim);
            let m = put_bundle(sheet, other, v, b.code, v.tasks, b.claim);
            buf[..n].cmp(&other[..m])
        }
    }
}

// The better of two that were found, the first of equals.
fn preferred(sheet: &[u8], buf: &mut [u8], other: &mut [u8], v: View, a: Best, b: Best) -> Best
    requires { Small v × (room ≤ length buf.old) × (room ≤ length other.old) × Coded v.tasks a.code × Coded v.tasks b.code }
    ensures { ChoiceIs sheet.now v a b result }
{
    if order_of(sheet, buf, other, v, a, b).is_le() {
        a
    } else {
        b
    }
}

// One arrangement of all tasks: judged, and compared with the best so far if it is accepted.
pub fn consider(
    sheet: &[u8],
    w: &mut [u32],
    buf: &mut [u8],
    other: &mut [u8],
    v: View,
    code: usize,
    programmes: usize,
    best: Option<Best>,
) -> Option<Best>
    requires seen { Seen sheet.now v × Small v × (extent ≤ length w.old) × (room ≤ length buf.old) × (room ≤ length other.old) }
    requires coded { Coded v.tasks code × (programmes ≡ opens_of v.tasks code) × Right v best }
    ensures { FoldIs sheet.now v (λ s. arranged v.tasks code ∷ []) best result }
{
    let Some(claim) = judge(sheet, w, buf, v, code) else {
        return best;
    };
    let next = Best {
        claim,
        programmes,
        code,
    };
    match best {
        None => Some(next),
        Some(b) => Some(preferred(sheet, buf, other, v, b, next)),
    }
}
