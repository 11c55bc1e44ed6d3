// The better of two bundles for one sheet, as the caller's own bytes.
#![tactic(auto)]

pub mod standings; // standings.rt: what a bundle is ranked by
pub mod choosing; // choosing.rt: which of two bundles

ghost use Rattle.better.specs.Choices.{BetterIs};

use crate::choosing::Lent;

// Checks both bundles and hands back the better one; a refusal hands back the empty front of the first.
pub fn better<'a>(
    sheet: &[u8],
    first: &'a [u8],
    second: &'a [u8],
    work: &mut [u32],
    number: &mut u8,
    place: &mut u64,
) -> &'a [u8]
    ensures { BetterIs sheet.now first.entry second.entry work.old work.new number.new place.new result }
{
    match choosing::choose(sheet, first, second, work) {
        Ok(Lent::First) => {
            *number = 0;
            *place = first.len() as u64;
            first
        }
        Ok(Lent::Second) => {
            *number = 0;
            *place = second.len() as u64;
            second
        }
        Err(refusal) => {
            *number = refusal.number;
            *place = refusal.place as u64;
            &first[..0]
        }
    }
}
