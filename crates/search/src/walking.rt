// An arrangement that is begun, one task more, and the tests by which a branch is left out.
ghost use Rattle.std.specs.Prelude.{◌≡◌, ◌<◌, ◌≤◌};
ghost use Rattle.folds.specs.Folds.{both};
ghost use Rattle.sheet.specs.Sheet.{work_of, store_of};
ghost use Rattle.admission.specs.Fields.{Seen};
ghost use Rattle.least.specs.Heads.{receives};
ghost use Rattle.least.specs.Least.{most};
ghost use Rattle.search.specs.Laying.{Small};
ghost use Rattle.search.specs.Walking.{LoadIs, KeyIs, FeedIs, FeedsIs, Begins, OpenedIs, JoinedIs, opens_right, joins_right, TestIs};

use crate::codes;
use crate::writing::end_of;
use adjacency::End;
use admission::view::View;
use numbers::get16;

// Keys below are those of runs.
pub const RECEIVES: usize = 256;

// An arrangement of some tasks: its code, how many tasks and programmes it has, how many of the tasks are in the last programme, the least key of a programme behind
// them, and the stores and works of the last programme.
#[derive(Clone, Copy)]
pub struct Begun {
    pub code: usize,
    pub tasks: usize,
    pub programmes: usize,
    pub own: usize,
    pub floor: usize,
    pub store: usize,
    pub work: usize,
}

fn store_of(sheet: &[u8], v: View, t: usize) -> usize
    requires { Seen sheet.now v × (t < v.tasks) }
    ensures { LoadIs store_of sheet.now v t result }
{
    usize::from(get16(sheet, v.store_at(t)))
}

fn work_of(sheet: &[u8], v: View, t: usize) -> usize
    requires { Seen sheet.now v × (t < v.tasks) }
    ensures { LoadIs work_of sheet.now v t result }
{
    usize::from(get16(sheet, v.work_at(t)))
}

// A number for the first command of a programme that t opens, in the order of the bytes: for its run, or for the receive of the first link to it.
fn key(sheet: &[u8], v: View, t: usize) -> usize
    requires { Small v × (t < receives) }
    ensures { KeyIs sheet.now v t result }
{
    for l in 0..v.links {
        if end_of(sheet, v, End::Target, l) == t {
            return RECEIVES + l;
        }
    }
    t
}

// Whether link l leads from t to one of the last tasks.
fn feeds_by(sheet: &[u8], v: View, code: usize, own: usize, t: usize, l: usize) -> bool
    requires { Small v × (l < v.links) }
    ensures { FeedIs sheet.now v code own t l result }
{
    if end_of(sheet, v, End::Source, l) != t {
        return false;
    }
    let to = end_of(sheet, v, End::Target, l);
    codes::stands(code, own, to)
}

// Whether any link does.
fn feeds(sheet: &[u8], v: View, code: usize, own: usize, t: usize) -> bool
    requires { Small v }
    ensures { FeedsIs sheet.now v code own t result }
{
    for l in 0..v.links {
        if feeds_by(sheet, v, code, own, t, l) {
            return true;
        }
    }
    false
}

// t in a programme of its own.
pub fn opened(sheet: &[u8], v: View, b: Begun, t: usize) -> Begun
    requires { Seen sheet.now v × Small v × Begins sheet.now v b × (b.tasks < most) × (t < v.tasks) }
    ensures { OpenedIs sheet.now v b t result }
{
    Begun {
        code: b.code * codes::BASE + codes::MARK + t,
        tasks: b.tasks + 1,
        programmes: b.programmes + 1,
        own: 1,
        floor: key(sheet, v, t) + 1,
        store: store_of(sheet, v, t),
        work: work_of(sheet, v, t),
    }
}

// t at the end of the last programme.
pub fn joined(sheet: &[u8], v: View, b: Begun, t: usize) -> Begun
    requires { Seen sheet.now v × Small v × Begins sheet.now v b × (b.tasks < most) × (t < v.tasks) × (0 < b.programmes) }
    ensures { JoinedIs sheet.now v b t result }
{
    Begun {
        code: b.code * codes::BASE + t,
        tasks: b.tasks + 1,
        own: b.own + 1,
        store: b.store + store_of(sheet, v, t),
        work: b.work + work_of(sheet, v, t),
        ..b
    }
}

// Whether what t makes of b in a programme of its own can be the best: there is a processor, the programmes rise, and t fits its store.
pub fn may_open(sheet: &[u8], v: View, b: Begun, t: usize, a: Begun) -> bool
    requires { Small v × Begins sheet.now v b × OpenedIs sheet.now v b t a × (t < v.tasks) }
    ensures { TestIs opens_right sheet.now v b t result }
{
    b.programmes < v.processors && b.floor < a.floor && a.store <= v.limit
}

// Whether what t makes of b in its last programme can be accepted: no link leads from t back into it, and all fit its store.
pub fn may_join(sheet: &[u8], v: View, b: Begun, t: usize, a: Begun) -> bool
    requires { Small v × Begins sheet.now v b × JoinedIs sheet.now v b t a × (t < v.tasks) × (0 < b.programmes) }
    ensures { TestIs joins_right sheet.now v b t result }
{
    a.store <= v.limit && !feeds(sheet, v, b.code, b.own, t)
}
