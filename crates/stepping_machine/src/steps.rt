// One choice of a processor, and a list of them.
ghost use Rattle.std.specs.Prelude.{◌≡◌, not, ◌-◌, ◌≤◌, ◌<◌, length, get_or, eqb};
ghost use Rattle.folds.specs.Folds.{pick, bit};
ghost use Rattle.machine.specs.Kept.{RunIs};
ghost use Rattle.stepping_machine.specs.Layout.{extent, numbers};
ghost use Rattle.stepping_machine.specs.Words.{next_in, clock_in, store_in, placed_words, stepped_words, ran_words, sent_words, got_words};
ghost use Rattle.stepping_machine.specs.Advance.{Narrow, Small};
ghost use Rattle.stepping_machine.specs.Represents.{Represents, ChoiceIs};

use crate::processors::{Processor, stepped};
use crate::{CLOCKS, EXTENT, KINDS, NUMBERS, SPAN, STAMPS, STORES, UNPACKING, put};

// Processor k of the words, after it gave back so much of its store.
fn processor(w: &[u32], k: usize, gives: usize) -> Processor
    requires { (k < 16) × (extent ≤ length w.now) }
    ensures { (result.clock ≡ clock_in w.now k) × (result.position ≡ next_in w.now k) × (result.store ≡ store_in w.now k - gives) × Narrow result }
{
    let store = workspace::word(w, STORES + k).saturating_sub(gives);
    Processor {
        clock: workspace::word(w, CLOCKS + k),
        position: workspace::word(w, k),
        store,
    }
}

// Processor k of the words becomes p.
fn place(w: &mut [u32], k: usize, p: Processor)
    requires { (k < 16) × (extent ≤ length w.old) }
    ensures { w.new ≡ placed_words w.old k p.position p.clock p.store }
{
    put(w, CLOCKS + k, p.clock);
    put(w, STORES + k, p.store);
    put(w, k, p.position);
}

// Processor k does its next command, which waits for a time, takes a time, gives back a store and needs one.
fn go_on(w: &mut [u32], k: usize, wait: usize, work: usize, gives: usize, need: usize)
    requires { (k < 16) × (extent ≤ length w.old) × Small wait work need }
    ensures { w.new ≡ stepped_words w.old k wait work gives need }
{
    let p = stepped(processor(w, k, gives), wait, work, need);
    place(w, k, p);
}

// Processor k runs the task whose need stands in word i: the amount is its work.
fn run(w: &mut [u32], k: usize, amount: usize, i: usize)
    requires { (k < 16) × (extent ≤ length w.old) × (amount < numbers) × (i < extent) }
    ensures { w.new ≡ ran_words w.old k amount i }
{
    let need = workspace::word(w, i);
    go_on(w, k, 0, amount, 0, need);
}

// Processor k sends the message of word i: the amount is the time it is under way.
fn send(w: &mut [u32], k: usize, amount: usize, i: usize)
    requires { (k < 16) × (extent ≤ length w.old) × (amount < numbers) × (i < extent) }
    ensures { w.new ≡ sent_words w.old k amount i }
{
    let stamp = workspace::word(w, CLOCKS + k) + amount + 1;
    go_on(w, k, 0, 0, 0, 0);
    put(w, i, stamp);
}

// Processor k receives the message of word i, if it was sent: the amount is its bytes, and unpacking it takes the board's time.
fn receive(w: &mut [u32], k: usize, amount: usize, i: usize) -> bool
    requires { (k < 16) × (extent ≤ length w.old) × (amount < numbers) × (i < extent) }
    ensures { (result ≡ not (eqb (get_or w.old i 0) 0)) × (w.new ≡ pick result (got_words w.old k amount i) w.old) }
{
    let stamp = workspace::word(w, i);
    if stamp == 0 {
        return false;
    }
    let unpacking = workspace::word(w, UNPACKING);
    go_on(w, k, stamp - 1, unpacking, 0, amount);
    true
}

// One command of processor k, by its word: the kinds are told by jumps. The end stands before the match, which would else be a jump by a table, that
// cannot be foretold. The word that a command works with is among the first 2,144, and so is there.
fn command(w: &mut [u32], k: usize) -> bool
    requires { (k < 16) × (extent ≤ length w.old) }
    ensures { ChoiceIs w.old w.new k result }
{
    let x = workspace::total::word(w, workspace::word(w, k));
    let kind = x / KINDS;
    if kind == 0 {
        return false;
    }
    let amount = x % NUMBERS;
    let i = STAMPS + x / NUMBERS % SPAN;
    match kind {
        1 => {
            run(w, k, amount, i);
            true
        }
        2 => {
            send(w, k, amount, i);
            true
        }
        3 => receive(w, k, amount, i),
        _ => {
            go_on(w, k, 0, 0, amount, 0);
            true
        }
    }
}

// One command of processor k, in constant time. False, and nothing changed, where it cannot step.
pub fn step(w: &mut [u32], k: usize) -> bool
    ensures { ChoiceIs w.old w.new k result }
{
    if EXTENT <= w.len() && k < 16 {
        command(w, k)
    } else {
        false
    }
}

// 1 for true, 0 for false.
pub fn counted(b: bool) -> usize
    ensures { result ≡ bit b }
{
    usize::from(b)
}

// The choices, one after the other: how many of them stepped.
pub fn run_all(choices: &[u8], w: &mut [u32]) -> usize
    ensures { RunIs Represents choices.now w.old w.new result }
{
    let mut n = 0;
    for choice in choices {
        n += counted(step(w, usize::from(*choice)));
    }
    n
}
