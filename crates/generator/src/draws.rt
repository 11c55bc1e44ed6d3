// Draws that can be made again.
ghost use Rattle.std.specs.Prelude.{◌≡◌};
ghost use Rattle.generator.specs.Draw.{xorshift, start_of, next_of, draw_of};

// What the second state grows by.
const GROWTH: u32 = 362437;

// The xorshift's state, and the one that grows.
#[derive(Clone, Copy)]
pub struct Draws {
    pub shifted: u32,
    pub grown: u32,
}

// Left 13, right 17, left 5.
fn shift(x: u32) -> u32
    ensures { result ≡ xorshift x }
{
    let a = x ^ (x << 13);
    let b = a ^ (a >> 17);
    b ^ (b << 5)
}

// The states before the first draw.
pub fn start(seed: u32) -> Draws
    ensures { result ≡ start_of seed }
{
    Draws {
        shifted: seed,
        grown: 0,
    }
}

// One draw further.
pub fn next(d: Draws) -> Draws
    ensures { result ≡ next_of d }
{
    Draws {
        shifted: shift(d.shifted),
        grown: d.grown.wrapping_add(GROWTH),
    }
}

// What was drawn last.
pub fn draw(d: Draws) -> u32
    ensures { result ≡ draw_of d }
{
    d.shifted.wrapping_add(d.grown)
}
