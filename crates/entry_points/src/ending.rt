// What the interface makes of how a part ends.
ghost use Rattle.std.specs.Prelude.{◌≡◌};
ghost use Rattle.entry_points.specs.Parts.{number_of, place_of};

use refusals::Refusal;

// The number that is returned; the place is put down.
pub fn conclude(o: Result<usize, Refusal>, place: &mut u64) -> u8
    ensures { (result ≡ number_of o) × (place.new ≡ place_of o) }
{
    match o {
        Ok(n) => {
            *place = n as u64;
            0
        }
        Err(refusal) => {
            *place = refusal.place as u64;
            refusal.number
        }
    }
}
