// Which of two bundles is the better one.
ghost use Rattle.std.specs.Prelude.{◌≡◌, ◌≤◌, length};
ghost use Rattle.folds.specs.Answers.{cleared};
ghost use Rattle.workspace.specs.Area.{fixed};
ghost use Rattle.admission.specs.Fields.{Seen};
ghost use Rattle.stepping_machine.specs.Layout.{extent};
ghost use Rattle.better.specs.Choices.{ahead, choice, better_answer};
ghost use Rattle.better.specs.Parts.{rank_in, lent_of, choice_of, ComparedIs, ChosenIs};

use crate::standings::{Standing, judge};
use admission::view::View;
use levelling::open;
use refusals::{Fault, Refusal};
use std::cmp::Ordering;
use stepping_machine::BOARD;

// The bundle that was lent first, or the one that was lent second.
#[derive(Clone, Copy)]
pub enum Lent {
    First,
    Second,
}

// The first of equals.
fn preferred(order: Ordering) -> Lent
    ensures { result ≡ lent_of (ahead order) }
{
    match order {
        Ordering::Less => Lent::First,
        Ordering::Equal => Lent::First,
        Ordering::Greater => Lent::Second,
    }
}

// Of two bundles with their standings, where they are accepted.
fn ranked(
    first: &[u8],
    second: &[u8],
    a: Option<Standing>,
    b: Option<Standing>,
) -> Result<Lent, Refusal>
    ensures { result ≡ choice_of (choice (rank_in first.now a) (rank_in second.now b)) }
{
    match a {
        None => match b {
            None => Err(Fault::BothRefused.at(0)),
            Some(_) => Ok(Lent::Second),
        },
        Some(x) => match b {
            None => Ok(Lent::First),
            Some(y) => {
                let claims = x.claim.cmp(&y.claim);
                let counts = x.runners.cmp(&y.runners);
                Ok(preferred(claims.then(counts).then(first.cmp(second))))
            }
        },
    }
}

// Of two bundles, for a sheet seen by v: each is judged in the same words.
fn compare(
    sheet: &[u8],
    first: &[u8],
    second: &[u8],
    w: &mut [u32],
    v: View,
) -> Result<Lent, Refusal>
    requires { Seen sheet.now v × (extent ≤ length w.old) }
    ensures { ComparedIs sheet.now first.now second.now w.old w.new v result }
{
    let a = judge(sheet, first, w, v);
    let b = judge(sheet, second, w, v);
    ranked(first, second, a, b)
}

// 1 to 10 of the sheet, which is read once; then which of two bundles, or 34. Judging needs of the sheet its bytes and its view alone, so that the words behind the
// board are free for each bundle in turn.
fn opened(sheet: &[u8], first: &[u8], second: &[u8], work: &mut [u32]) -> Result<Lent, Refusal>
    requires { fixed ≤ length work.old }
    ensures { ChosenIs sheet.now first.now second.now work.old work.new result }
{
    open::read(sheet, work)?;
    let v = View::of_tables(work);
    compare(sheet, first, second, &mut work[BOARD..], v)
}

// 13, or the choice, with a work area that is cleared.
pub fn choose(sheet: &[u8], first: &[u8], second: &[u8], work: &mut [u32]) -> Result<Lent, Refusal>
    ensures { (result ≡ choice_of (better_answer sheet.now first.now second.now (length work.old))) × (work.new ≡ cleared fixed work.old) }
{
    if work.len() < workspace::LENGTH {
        return Err(Fault::ShortWorkArea.at(workspace::LENGTH));
    }
    let c = opened(sheet, first, second, work);
    workspace::clear(work);
    c
}
