// Bytes of a formula, its numbers and letters, and what closes a parenthesis.
ghost use Rattle.std.specs.Prelude.{true, false, ◌≡◌, ℕ, ◌-◌, ◌≤◌, length, get_or};
ghost use Rattle.formulas.specs.Grammar.{is_digit, is_letter, first_letter, opener};
ghost use Rattle.formulas.specs.Parts.{stands_at, digit_at, closed_by, SimpleIs, NumberIs};

// `most_digits` of specs/Grammar.
const MOST_DIGITS: usize = 10;

// A part of the text: the offset behind it, and its value (values.rt says which). A reader gives the part that stands at a place, or the offset at which reading stops.
#[derive(Clone, Copy)]
pub struct Part {
    pub end: usize,
    pub value: u64,
}

fn is_digit(c: u8) -> bool
    ensures { result ≡ is_digit c }
{
    c.is_ascii_digit()
}

fn is_letter(c: u8) -> bool
    ensures { result ≡ is_letter c }
{
    c.is_ascii_lowercase()
}

// The byte c stands at `at`.
pub fn stands(text: &[u8], at: usize, c: u8) -> bool
    ensures { result ≡ stands_at text.now at c }
{
    at < text.len() && text[at] == c
}

// The value of a letter, and 0 where the list is too short for it.
fn letter_value(letters: &[u32], c: u8) -> u32
    requires { is_letter c ≡ true }
    ensures { result ≡ get_or letters.now (c - first_letter) 0 }
{
    letters.get(usize::from(c - b'a')).copied().unwrap_or(0)
}

// A digit stands at `at`, and the number that begins at `from` may have it.
fn digit_at(text: &[u8], from: usize, at: usize) -> bool
    requires { from ≤ at }
    ensures { result ≡ digit_at text.now from at }
{
    at < text.len() && at - from < MOST_DIGITS && is_digit(text[at])
}

// The number that begins with the digit at `from`.
fn number(text: &[u8], from: usize) -> Part
    requires { digit_at text.now from from ≡ true }
    ensures { NumberIs text.now from result }
{
    let mut value: u64 = 0;
    let mut at = from;
    while digit_at(text, from, at) {
        value = value * 10 + u64::from(text[at] - b'0');
        at += 1;
    }
    Part { end: at, value }
}

// A number or a letter.
pub fn simple(text: &[u8], letters: &[u32], at: usize) -> Result<Part, usize>
    requires { stands_at text.now at opener ≡ false }
    ensures { SimpleIs text.now letters.now at result }
{
    if text.len() <= at {
        Err(text.len())
    } else if is_digit(text[at]) {
        Ok(number(text, at))
    } else if is_letter(text[at]) {
        Ok(Part {
            end: at + 1,
            value: u64::from(letter_value(letters, text[at])),
        })
    } else {
        Err(at)
    }
}

// What stands in parentheses, by what was read behind the `(`: a `)` has to follow it.
pub fn closed(text: &[u8], inner: Part) -> Result<Part, usize>
    ensures { result ≡ closed_by text.now inner }
{
    if stands(text, inner.end, b')') {
        Ok(Part {
            end: inner.end + 1,
            ..inner
        })
    } else {
        Err(inner.end)
    }
}
