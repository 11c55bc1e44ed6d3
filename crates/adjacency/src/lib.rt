// The links out of each task and into each task, chained in rising number, so that a task's own links are walked without the others.
#![tactic(auto)]

ghost use Rattle.std.specs.Prelude.{◌≡◌, ◌+◌, ◌<◌, ◌≤◌};
ghost use Rattle.sheet.specs.Sheet.{task_count, link_count};
ghost use Rattle.sheet.specs.Tables.{sheet_in, Loaded};
ghost use Rattle.adjacency.specs.Chains.{end_by, half, rest, head_of, next_of, Rechained, Chained, ChainedFrom};

use sheet::tables;
use workspace::{HEADS, NEXTS};

// The end of a link by which it is chained: its source, for the links out of a task, or its target, for those into one.
#[derive(Clone, Copy)]
pub enum End {
    Source,
    Target,
}

fn end_of(w: &[u32], e: End, l: usize) -> usize
    requires loaded { Loaded w.now }
    requires l_bound { l < link_count (sheet_in w.now) }
    ensures { (result ≡ end_by e (sheet_in w.now) l) × (result < task_count (sheet_in w.now)) }
{
    match e {
        End::Source => tables::source(w, l),
        End::Target => tables::target(w, l),
    }
}

// The half of a word that one end's chains have: the upper for the links out of tasks, the lower for those into them.
fn half(e: End, x: usize) -> usize
    ensures { result ≡ half e x }
{
    match e {
        End::Source => x / 65536,
        End::Target => x % 65536,
    }
}

// The word with y in that half. The links into tasks are chained first, with nothing above them.
fn with_half(e: End, x: usize, y: usize) -> usize
    requires { y < 65536 }
    ensures { (half e result ≡ y) × (rest e result ≡ rest e x) × (result < 4294967296) }
{
    match e {
        End::Source => x % 65536 + 65536 * y,
        End::Target => y,
    }
}

// No link is in a chain.
fn unchain(w: &mut [u32], e: End)
    requires { Loaded w.old }
    ensures { Rechained e w.old w.new × ChainedFrom e (sheet_in w.old) (link_count (sheet_in w.old)) w.new }
{
    let m = tables::links(w);
    for t in 0..tables::tasks(w) {
        let x = workspace::word(w, HEADS + t);
        w[HEADS + t] = with_half(e, x, m) as u32;
    }
}

// Link l goes before the chain of its end.
fn chain_one(w: &mut [u32], e: End, l: usize)
    requires loaded { Loaded w.old }
    requires l_bound { l < link_count (sheet_in w.old) }
    requires chained_from { ChainedFrom e (sheet_in w.old) (l + 1) w.old }
    ensures { Rechained e w.old w.new × ChainedFrom e (sheet_in w.old) l w.new }
{
    let t = end_of(w, e, l);
    let x = workspace::word(w, HEADS + t);
    let y = workspace::word(w, NEXTS + l);
    w[NEXTS + l] = with_half(e, y, half(e, x)) as u32;
    w[HEADS + t] = with_half(e, x, l) as u32;
}

// All links go into the chains, the last first.
fn chain_all(w: &mut [u32], e: End)
    requires loaded { Loaded w.old }
    requires chained_from { ChainedFrom e (sheet_in w.old) (link_count (sheet_in w.old)) w.old }
    ensures { Rechained e w.old w.new × Chained e (sheet_in w.old) w.new }
{
    for l in (0..tables::links(w)).rev() {
        chain_one(w, e, l);
    }
}

pub fn chain(w: &mut [u32], e: End)
    requires { Loaded w.old }
    ensures { Rechained e w.old w.new × Chained e (sheet_in w.old) w.new }
{
    unchain(w, e);
    chain_all(w, e);
}

// The first link of t, or the number of links.
pub fn first(w: &[u32], e: End, t: usize) -> usize
    requires loaded { Loaded w.now }
    requires chained { Chained e (sheet_in w.now) w.now }
    requires t_bound { t < task_count (sheet_in w.now) }
    ensures { (result ≡ head_of e w.now t) × (result ≤ link_count (sheet_in w.now)) }
{
    half(e, workspace::word(w, HEADS + t))
}

// The next link of the same task as l, or the number of links.
pub fn next(w: &[u32], e: End, l: usize) -> usize
    requires loaded { Loaded w.now }
    requires chained { Chained e (sheet_in w.now) w.now }
    requires l_bound { l < link_count (sheet_in w.now) }
    ensures { (result ≡ next_of e w.now l) × (result ≤ link_count (sheet_in w.now)) × (l < result) }
{
    half(e, workspace::word(w, NEXTS + l))
}
