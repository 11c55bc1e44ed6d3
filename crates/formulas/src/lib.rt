// A formula's weight. The readers of a sum, a product and an atom call each other: the parentheses that may still be opened bound how deep, the text how often.
#![tactic(auto)]

ghost use Rattle.std.specs.Prelude.{◌≡◌, eqb};
ghost use Rattle.folds.specs.Folds.{both};
ghost use Rattle.refusals.specs.Refusals.{refusal};
ghost use Rattle.formulas.specs.Grammar.{within};
ghost use Rattle.formulas.specs.Meaning.{letter_count, greatest_weight};
ghost use Rattle.formulas.specs.Weights.{weight_of};
ghost use Rattle.formulas.specs.Parts.{SumIs, ProductIs, AtomIs, answer_of};

use crate::operands::{Part, closed, simple, stands};
use crate::values::{added, multiplied};
use refusals::{Fault, Refusal};

mod operands;
mod values;

// `most_open` of specs/Grammar.
const MOST_OPEN: usize = 32;

// `letter_count` and `greatest_weight` of specs/Meaning.
const LETTERS: usize = 26;

const HEAVIEST: u64 = 65535;

// A number, a letter, or a sum in parentheses, of which `room` more may be opened.
#[cycle(atom_product_sum)]
fn atom(text: &[u8], letters: &[u32], at: usize, room: usize) -> Result<Part, usize>
    ensures { AtomIs text.now letters.now at room result }
{
    if stands(text, at, b'(') {
        if room == 0 {
            Err(at)
        } else {
            closed(text, sum(text, letters, at + 1, room - 1)?)
        }
    } else {
        simple(text, letters, at)
    }
}

// Atoms with `*` between them, from the left.
#[cycle(atom_product_sum)]
fn product(text: &[u8], letters: &[u32], from: usize, room: usize) -> Result<Part, usize>
    ensures { ProductIs text.now letters.now from room result }
{
    let mut value: u64 = 1;
    let mut at = from;
    loop {
        let part = atom(text, letters, at, room)?;
        value = multiplied(value, part.value);
        if !stands(text, part.end, b'*') {
            return Ok(Part { value, ..part });
        }
        at = part.end + 1;
    }
}

// Products with `+` between them, from the left.
#[cycle(atom_product_sum)]
fn sum(text: &[u8], letters: &[u32], from: usize, room: usize) -> Result<Part, usize>
    ensures { SumIs text.now letters.now from room result }
{
    let mut value: u64 = 0;
    let mut at = from;
    loop {
        let part = product(text, letters, at, room)?;
        value = added(value, part.value);
        if !stands(text, part.end, b'+') {
            return Ok(Part { value, ..part });
        }
        at = part.end + 1;
    }
}

// Each letter has its value, and v may be a weight.
fn is_weight(letters: usize, v: u64) -> bool
    ensures { result ≡ both (eqb letters letter_count) (within 1 greatest_weight v) }
{
    letters == LETTERS && 1 <= v && v <= HEAVIEST
}

// What stands at `place` is outside the grammar, or nested too deep.
fn outside(place: usize) -> Refusal
    ensures { result ≡ refusal 35 place }
{
    Fault::NoFormula.at(place)
}

// The weight of a formula, with the values of the letters a to z.
pub fn weigh(text: &[u8], letters: &[u32]) -> Result<u64, Refusal>
    ensures { answer_of result ≡ weight_of text.now letters.now }
{
    let whole = sum(text, letters, 0, MOST_OPEN).map_err(outside)?;
    if whole.end < text.len() {
        return Err(outside(whole.end));
    }
    if is_weight(letters.len(), whole.value) {
        Ok(whole.value)
    } else {
        Err(Fault::WrongValue.at(0))
    }
}
