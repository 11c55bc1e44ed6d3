// Commands of a bundle's bytes as words, with the numbers of the sheet's bytes.
ghost use Rattle.std.specs.Prelude.{◌≡◌, ◌+◌, ◌≤◌, ◌<◌, length, get_or, eqb};
ghost use Rattle.folds.specs.Folds.{pick};
ghost use Rattle.numbers.specs.Number.{number_at};
ghost use Rattle.stepping_machine.specs.Loads.{Decodable, CodeIs};

use crate::{KINDS, NUMBERS, TASKS};
use admission::view::View;
use bundle::{LONG_SIZE, SHORT_SIZE};

// A command's word, how many bytes it has, what it adds to the store in use and what it gives back of it.
#[derive(Clone, Copy)]
pub struct Coded {
    pub word: usize,
    pub size: usize,
    pub need: usize,
    pub gives: usize,
}

// The two bytes at i, which are there, lowest first.
pub fn pair(b: &[u8], i: usize) -> usize
    requires { i + 2 ≤ length b.now }
    ensures { (result ≡ number_at 2 b.now i) × (result < 65536) }
{
    usize::from(numbers::get16(b, i))
}

// The bytes of a receive, and nothing of a send: chosen by value and by no jump, since which of them stands there cannot be foretold.
fn received(receives: usize, amount: usize) -> usize
    ensures { result ≡ pick (eqb receives 1) amount 0 }
{
    if receives == 1 { amount } else { 0 }
}

// The release at the offset o, which lies before the offset e.
fn decode_release(sheet: &[u8], bundle: &[u8], v: View, o: usize, e: usize) -> Coded
    requires { Decodable sheet.now bundle.now v o e × (o < e) × (get_or bundle.now o 0 < 0x50) }
    ensures { CodeIs sheet.now bundle.now v o result }
{
    if bundle[o] == 0x46 {
        let t = usize::from(bundle[o + 1]);
        let store = pair(sheet, v.store_at(t));
        Coded {
            word: 4 * KINDS + NUMBERS * (TASKS + t) + store,
            size: SHORT_SIZE,
            need: 0,
            gives: store,
        }
    } else {
        let l = pair(bundle, o + 1);
        let bytes = pair(sheet, v.cost_at(l) + 2);
        Coded {
            word: 4 * KINDS + NUMBERS * l + bytes,
            size: LONG_SIZE,
            need: 0,
            gives: bytes,
        }
    }
}

// The command at the offset o, which lies before the offset e.
pub fn decode(sheet: &[u8], bundle: &[u8], v: View, o: usize, e: usize) -> Coded
    requires { Decodable sheet.now bundle.now v o e × (o < e) }
    ensures { CodeIs sheet.now bundle.now v o result }
{
    let c = bundle[o];
    if c == 0x52 {
        let t = usize::from(bundle[o + 1]);
        let work = pair(sheet, v.work_at(t));
        let need = pair(sheet, v.store_at(t));
        Coded {
            word: KINDS + NUMBERS * (TASKS + t) + work,
            size: SHORT_SIZE,
            need,
            gives: 0,
        }
    } else if c < 0x50 {
        decode_release(sheet, bundle, v, o, e)
    } else {
        let l = pair(bundle, o + 1);
        // Branch-free: 0x56 + 172 carries into bit 8, 0x53 + 172 does not.
        let receives = (usize::from(c) + 172) / 256;
        let amount = pair(sheet, v.cost_at(l) + 2 * receives);
        Coded {
            word: 2 * KINDS + KINDS * receives + NUMBERS * l + amount,
            size: LONG_SIZE,
            need: received(receives, amount),
            gives: 0,
        }
    }
}
