// Values up to 4,294,967,295. Any number above it stands for a value that is too large, and so does whatever is made of one.
ghost use Rattle.std.specs.Prelude.{◌≡◌, ◌+◌, ◌*◌, leb};
ghost use Rattle.folds.specs.Folds.{both};
ghost use Rattle.formulas.specs.Values.{greatest_value, capped, capped_by};

// `greatest_value` of specs/Values, and one more.
const GREATEST: u64 = 4294967295;

const TOO_LARGE: u64 = 4294967296;

fn are_values(a: u64, b: u64) -> bool
    ensures { result ≡ both (leb a greatest_value) (leb b greatest_value) }
{
    a <= GREATEST && b <= GREATEST
}

pub fn added(a: u64, b: u64) -> u64
    ensures { capped result ≡ capped_by ◌+◌ (capped a) (capped b) }
{
    if are_values(a, b) { a + b } else { TOO_LARGE }
}

pub fn multiplied(a: u64, b: u64) -> u64
    ensures { capped result ≡ capped_by ◌*◌ (capped a) (capped b) }
{
    if are_values(a, b) { a * b } else { TOO_LARGE }
}
