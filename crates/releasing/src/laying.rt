// Bytes laid over what was lent, as far as it reaches. Those behind its end are counted and not kept, so that the same code measures and writes.
ghost use Rattle.std.specs.Prelude.{◌≡◌, ◌+◌, ◌≤◌, ◌<◌, length, set};
ghost use Rattle.bundle.specs.Writing.{command_bytes};
ghost use Rattle.releasing.specs.Inserting.{Lay, part, thing};

fn put(out: &mut [u8], at: usize, x: u8)
    ensures { out.new ≡ set out.old at x }
{
    if at < out.len() {
        out[at] = x;
    }
}

// The bytes of a bundle from an offset up to another.
pub fn copy(bundle: &[u8], from: usize, to: usize, out: &mut [u8], start: usize) -> usize
    requires { (from ≤ to) × (to ≤ length bundle.now) × (start < 1152921504606846976) }
    ensures { Lay out.old start (part bundle.now from to) out.new result }
{
    let mut at = start;
    for i in from..to {
        put(out, at, bundle[i]);
        at += 1;
    }
    at
}

// The release of thing x.
pub fn put_release(out: &mut [u8], at: usize, x: usize) -> usize
    requires { (x < 1280) × (at < 1152921504606846976) }
    ensures { Lay out.old at (command_bytes (thing x)) out.new result × (result ≤ at + 3) }
{
    if x < 256 {
        put(out, at, 0x46);
        put(out, at + 1, x as u8);
        at + 2
    } else {
        let l = x - 256;
        put(out, at, 0x47);
        put(out, at + 1, (l % 256) as u8);
        put(out, at + 2, (l / 256 % 256) as u8);
        at + 3
    }
}
