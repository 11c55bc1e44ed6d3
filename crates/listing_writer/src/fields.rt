// Decimal numbers, fields and fixed words, counted and put into the output.
ghost use Rattle.std.specs.Prelude.{◌≡◌, ◌+◌, ◌≤◌, ◌<◌, length};
ghost use Rattle.numbers.specs.Number.{Put};
ghost use Rattle.listing.specs.Listing.{decimal, field, line_end};
ghost use Rattle.listing_writer.specs.Lines.{four_digits, two_fields};

// How many decimal digits n has.
pub fn digits(n: usize) -> usize
    ensures { (result ≡ length (decimal n)) × (result ≤ 20) }
{
    if n < 10 { 1 } else { digits(n / 10) + 1 }
}

// The byte of a digit.
fn digit(d: usize) -> u8
    requires { d < 10 }
    ensures { result ≡ 48 + d }
{
    (48 + d) as u8
}

// Puts the four digits of n, also where they begin with 0, at `at`, and gives the offset behind them, as all below.
fn put_four(out: &mut [u8], at: usize, n: usize) -> usize
    requires { (n < 10000) × (at + 4 ≤ length out.old) }
    ensures { Put out.old at (four_digits n) out.new result }
{
    out[at] = digit(n / 1000);
    out[at + 1] = digit(n / 100 % 10);
    out[at + 2] = digit(n / 10 % 10);
    out[at + 3] = digit(n % 10);
    at + 4
}

// A number of at most four digits.
fn put_short(out: &mut [u8], at: usize, n: usize) -> usize
    requires { (n < 10000) × (at + length (decimal n) ≤ length out.old) }
    ensures { Put out.old at (decimal n) out.new result }
{
    if n < 10 {
        out[at] = digit(n);
        at + 1
    } else if n < 100 {
        out[at] = digit(n / 10);
        out[at + 1] = digit(n % 10);
        at + 2
    } else if n < 1000 {
        out[at] = digit(n / 100);
        out[at + 1] = digit(n / 10 % 10);
        out[at + 2] = digit(n % 10);
        at + 3
    } else {
        put_four(out, at, n)
    }
}

// Any number, four digits at a time.
fn put_long(out: &mut [u8], at: usize, n: usize) -> usize
    requires { at + length (decimal n) ≤ length out.old }
    ensures { Put out.old at (decimal n) out.new result }
{
    if n < 10000 {
        put_short(out, at, n)
    } else {
        let end = put_long(out, at, n / 10000);
        put_four(out, end, n % 10000)
    }
}

// The same. The numbers of a plan have at most eight digits, and take no recursion.
pub fn put_decimal(out: &mut [u8], at: usize, n: usize) -> usize
    requires { at + length (decimal n) ≤ length out.old }
    ensures { Put out.old at (decimal n) out.new result }
{
    if n < 10000 {
        put_short(out, at, n)
    } else if n < 100000000 {
        let end = put_short(out, at, n / 10000);
        put_four(out, end, n % 10000)
    } else {
        put_long(out, at, n)
    }
}

// A space and n.
pub fn put_field(out: &mut [u8], at: usize, n: usize) -> usize
    requires { at + length (field n) ≤ length out.old }
    ensures { Put out.old at (field n) out.new result }
{
    out[at] = b' ';
    put_decimal(out, at + 1, n)
}

// The end of a line.
fn put_end(out: &mut [u8], at: usize) -> usize
    requires { at < length out.old }
    ensures { Put out.old at line_end out.new result }
{
    out[at] = b'\n';
    at + 1
}

// Two fields and the end of the line.
pub fn put_fields(out: &mut [u8], at: usize, a: usize, b: usize) -> usize
    requires { at + length (two_fields a b) ≤ length out.old }
    ensures { Put out.old at (two_fields a b) out.new result }
{
    let next = put_field(out, at, a);
    let last = put_field(out, next, b);
    put_end(out, last)
}

// A fixed word.
pub fn put_word(out: &mut [u8], at: usize, word: &[u8]) -> usize
    requires { at + length word.now ≤ length out.old }
    ensures { Put out.old at word.now out.new result }
{
    let end = at + word.len();
    out[at..end].copy_from_slice(word);
    end
}
