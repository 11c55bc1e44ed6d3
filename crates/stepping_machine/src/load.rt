// The programmes of a bundle, decoded into the words that have their offsets, and the fresh state. The highest store in use of each is found on the way.
ghost use Rattle.std.specs.Prelude.{◌≡◌, suc, ◌+◌, ◌%◌, ◌≤◌, ◌<◌, length, get_or};
ghost use Rattle.stepping_machine.specs.Layout.{extent, commands};
ghost use Rattle.stepping_machine.specs.Words.{opened_words};
ghost use Rattle.stepping_machine.specs.Loads.{Decodable, Ready, ProgrammeIs, OneIs, AllIs, RestIs, WipeIs, NeedsIs, LoadIs};

use crate::decoding::{decode, pair};
use crate::ways::{homes, ways};
use crate::{CLOCKS, COMMANDS, COUNT, FIRSTS, IDLE, LASTS, LINKS, NEEDS, STAMPS, UNPACKING, put};
use admission::view::View;

// The index behind a programme, and its highest store in use.
#[derive(Clone, Copy)]
struct Extent {
    end: usize,
    highest: usize,
}

// The programme from the offset o to the offset e into the words from the index a on, and a 0 behind it; the index of that.
fn load_programme(
    sheet: &[u8],
    bundle: &[u8],
    w: &mut [u32],
    v: View,
    o: usize,
    e: usize,
    a: usize,
) -> Extent
    requires { Decodable sheet.now bundle.now v o e × (e < 4294967296) × (a < 1099511627776) }
    ensures { ProgrammeIs sheet.now bundle.now w.old w.new v o e a result.end result.highest }
{
    let mut from = o;
    let mut to = a;
    let mut store: usize = 0;
    let mut highest: usize = 0;
    while from < e {
        let x = decode(sheet, bundle, v, from, e);
        workspace::total::put(w, to, x.word);
        store = (store + x.need).saturating_sub(x.gives);
        highest = highest.max(store);
        from += x.size;
        to += 1;
    }
    workspace::total::put(w, to, 0);
    Extent { end: to, highest }
}

// Processor k before the first command of a programme between two indices.
fn open_programme(w: &mut [u32], k: usize, first: usize, last: usize)
    requires { (k < 16) × (extent ≤ length w.old) }
    ensures { w.new ≡ opened_words w.old k (first % 4294967296) (last % 4294967296) }
{
    put(w, k, first);
    put(w, FIRSTS + k, first);
    put(w, LASTS + k, last);
}

// Programme k, whose offsets stand in words k and k + 1, from the index c on; the index for the next one.
fn load_one(sheet: &[u8], bundle: &[u8], w: &mut [u32], v: View, k: usize, c: usize) -> Extent
    requires { Decodable sheet.now bundle.now v (get_or w.old k 0 + 2) (get_or w.old (suc k) 0) × (k < 16) × (extent ≤ length w.old) × (commands ≤ c) × (c < 274877906944) }
    ensures { OneIs sheet.now bundle.now w.old w.new v k c result.end result.highest }
{
    let o = workspace::word(w, k) + 2;
    let e = workspace::word(w, k + 1);
    let x = load_programme(sheet, bundle, w, v, o, e, c);
    ways(sheet, w, v, k, c, x.end);
    open_programme(w, k, c, x.end);
    Extent {
        end: x.end + 1,
        ..x
    }
}

// The m programmes, one behind the other, up to the first whose highest store in use is above the limit (28).
fn load_all(sheet: &[u8], bundle: &[u8], w: &mut [u32], v: View, m: usize) -> Option<usize>
    requires { Ready sheet.now bundle.now w.old v m }
    ensures { AllIs sheet.now bundle.now w.old w.new v m result }
{
    let mut c: usize = COMMANDS;
    for k in 0..m {
        let x = load_one(sheet, bundle, w, v, k, c);
        if v.limit < x.highest {
            return Some(k);
        }
        c = x.end;
    }
    None
}

// Every processor from m on has no command.
fn rest(w: &mut [u32], m: usize)
    requires { (m ≤ 16) × (extent ≤ length w.old) }
    ensures { RestIs w.old w.new m 16 }
{
    for k in m..16 {
        open_programme(w, k, IDLE, IDLE);
    }
}

// Clocks, stores and l stamps become 0; m programmes and l links are counted, and a receive takes the time u.
fn wipe(w: &mut [u32], m: usize, l: usize, u: usize)
    requires { (m ≤ 16) × (l ≤ 1024) × (u < 65536) × (extent ≤ length w.old) }
    ensures { WipeIs w.old w.new m l u }
{
    workspace::clear_words(w, CLOCKS, FIRSTS);
    workspace::clear_words(w, IDLE, STAMPS + l);
    put(w, COUNT, m);
    put(w, LINKS, l);
    put(w, UNPACKING, u);
}

// What each task needs of the store.
fn load_needs(sheet: &[u8], w: &mut [u32], v: View)
    requires { (v.middle ≤ length sheet.now) × (extent ≤ length w.old) }
    ensures { NeedsIs sheet.now w.old w.new v.front v.tasks }
{
    for t in 0..v.tasks {
        let need = pair(sheet, v.store_at(t));
        put(w, NEEDS + t, need);
    }
}

// 28, or the fresh state of m programmes, whose offsets stand in the words.
pub fn load(sheet: &[u8], bundle: &[u8], w: &mut [u32], v: View, m: usize) -> Option<usize>
    requires { Ready sheet.now bundle.now w.old v m }
    ensures { LoadIs sheet.now bundle.now w.old w.new v m result }
{
    homes(w, v);
    match load_all(sheet, bundle, w, v, m) {
        Some(k) => Some(k),
        None => {
            rest(w, m);
            wipe(w, m, v.links, v.unpacking);
            load_needs(sheet, w, v);
            None
        }
    }
}
