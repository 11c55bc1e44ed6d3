// The listing of any bytes, in a buffer that is always long enough: what the programs print.
#![tactic(auto)]

ghost use Rattle.console.specs.Pieces.{PutIs};

// Puts the listing of these bytes, which is never longer, at the front of `out`, and answers its length.
pub fn put_listing(sheet: &[u8], out: &mut [u8; 21551]) -> usize
    ensures { PutIs sheet.now out.new result }
{
    let mut work = [0u32; workspace::LENGTH];
    listing_writer::list(sheet, &mut work, out).unwrap()
}
