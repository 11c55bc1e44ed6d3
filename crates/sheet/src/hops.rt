// How far two processors of a cube are apart.
ghost use Rattle.std.specs.Prelude.{◌≡◌, ◌≤◌};
ghost use Rattle.sheet.specs.Hops.{hops};

// The count of bits in which the two numbers differ.
pub fn hops(j: u8, k: u8) -> u32
    ensures { (result ≡ hops j k) × (result ≤ 8) }
{
    (j ^ k).count_ones()
}
