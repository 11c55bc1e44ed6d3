// One pass over a bundle that notes of each command how often and where it stands.
ghost use Rattle.std.specs.Prelude.{◌≡◌, ◌+◌, ◌*◌, ◌≤◌, ◌<◌, length, get_or, eqb};
ghost use Rattle.folds.specs.Folds.{bit};
ghost use Rattle.admission.specs.Notes.{slots_at, slots_end, home_in, message_at, noted_words, BlankIs, NotesIs};

use bundle::kinds::size_of;
use bundle::{CLAIM_SIZE, LONG_SIZE, SHORT_SIZE};

// Where the notes of runs, of sends and of receives stand, and behind them what is kept for the releases of results and of messages (specs/Notes).
pub const NOTES: usize = 1376;

pub const SENDS: usize = 1632;

pub const RECEIVES: usize = 2656;

pub const RELEASES: usize = 3680;

pub const DISCARDS: usize = 3936;

// The slot of the send or receive at `at`. A sum and no test: which of them stands there cannot be foretold.
fn message(bundle: &[u8], at: usize) -> usize
    requires { at + 3 ≤ length bundle.now }
    ensures { (result ≡ message_at bundle.now at) × (result < 66816) }
{
    let c = usize::from(bundle[at]);
    let l = usize::from(numbers::get16(bundle, at + 1));
    256 + 1024 * ((c + 172) / 256) + l
}

// A command of slot x was met in programme k, r others before it: how many were met now.
fn note(w: &mut [u32], x: usize, k: usize, r: usize) -> usize
    requires { (x < 66816) × (2 * r < 18446744073709551616) }
    ensures { (w.new ≡ noted_words w.old x k r) × (result ≡ r + bit (eqb (get_or w.old (slots_at + x) 0) 0)) }
{
    if workspace::total::word(w, NOTES + x) == 0 {
        workspace::total::put(w, NOTES + x, 4096 * (k % 16 + 1) + r);
        r + 1
    } else {
        workspace::total::put(w, NOTES + x, 1);
        r
    }
}

// No command is noted of n tasks and l links. The other slots stay: no command of a bundle that was read has one.
fn blank(w: &mut [u32], n: usize, l: usize)
    requires { (n ≤ 256) × (l ≤ 1024) × (slots_end ≤ length w.old) }
    ensures { BlankIs w.old w.new n l }
{
    workspace::clear_words(w, NOTES, NOTES + n);
    workspace::clear_words(w, SENDS, SENDS + l);
    workspace::clear_words(w, RECEIVES, RECEIVES + l);
}

// Notes all runs, sends and receives of a bundle for a sheet of n tasks and l links, in the words from NOTES on: how many were met, each counted once.
pub fn note_all(bundle: &[u8], w: &mut [u32], n: usize, l: usize) -> usize
    requires { (n ≤ 256) × (l ≤ 1024) × (slots_end ≤ length w.old) }
    ensures { NotesIs bundle.now w.old w.new n l result }
{
    blank(w, n, l);
    let end = bundle.len().saturating_sub(CLAIM_SIZE);
    let mut at: usize = SHORT_SIZE;
    let mut k: usize = 0;
    let mut r: usize = 0;
    while at < end {
        let c = bundle[at];
        if c == 0x50 {
            k += 1;
            at += SHORT_SIZE;
        } else if c == 0x52 {
            r = note(w, usize::from(bundle[at + 1]), k, r);
            at += SHORT_SIZE;
        } else if c < 0x50 {
            at += size_of(u16::from(c));
        } else {
            r = note(w, message(bundle, at), k, r);
            at += LONG_SIZE;
        }
    }
    r
}

// The programme that runs task t, by its note.
pub fn home(w: &[u32], t: usize) -> usize
    requires { (t < 256) × (slots_end ≤ length w.now) }
    ensures { (result ≡ home_in w.now t) × (result < 1048576) }
{
    (workspace::word(w, NOTES + t) / 4096).saturating_sub(1)
}
