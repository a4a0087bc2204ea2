// Text put into a buffer. Each function writes at a place and answers the place behind what it wrote.
ghost use Rattle.std.specs.Prelude.{◌≡◌, [], ◌∷◌, ◌+◌, ◌≤◌, ◌<◌, length};
ghost use Rattle.text.specs.Text.{Put, decimal_text, hex_text, signed_text, digit_byte};

// One byte.
fn put_byte(out: &mut [u8], at: usize, b: u8) -> usize
    requires { at + 1 ≤ length out.old }
    ensures { Put out.old at (b ∷ []) out.new result }
{
    out[at] = b;
    at + 1
}

// A text.
pub fn put(out: &mut [u8], at: usize, s: &[u8]) -> usize
    requires { at + length s.now ≤ length out.old }
    ensures { Put out.old at s.now out.new result }
{
    let next = at + s.len();
    out[at..next].copy_from_slice(s);
    next
}

// The decimal digits of n.
pub fn put_decimal(out: &mut [u8], at: usize, n: u64) -> usize
    requires { at + length (decimal_text n) ≤ length out.old }
    ensures { Put out.old at (decimal_text n) out.new result }
{
    let last = b'0' + (n % 10) as u8;
    if n < 10 {
        put_byte(out, at, last)
    } else {
        let m = put_decimal(out, at, n / 10);
        put_byte(out, m, last)
    }
}

// The byte of a digit, in upper case.
#[tactic(auto, unfolding(crate::specs::Text::digit_byte))]
fn digit_byte(d: u64) -> u8
    requires { d < 16 }
    ensures { result ≡ digit_byte d }
{
    if d < 10 {
        b'0' + d as u8
    } else {
        b'A' + (d - 10) as u8
    }
}

// The last k hex digits of n, in upper case.
pub fn put_hex(out: &mut [u8], at: usize, k: usize, n: u64) -> usize
    requires { at + k ≤ length out.old }
    ensures { Put out.old at (hex_text k n) out.new result }
{
    if k == 0 {
        at
    } else {
        let m = put_hex(out, at, k - 1, n / 16);
        put_byte(out, m, digit_byte(n % 16))
    }
}

// The decimal of z, with a minus where it is below 0.
pub fn put_signed(out: &mut [u8], at: usize, z: i64) -> usize
    requires { at + length (signed_text z) ≤ length out.old }
    ensures { Put out.old at (signed_text z) out.new result }
{
    let digits = z.unsigned_abs();
    if z < 0 {
        let m = put_byte(out, at, b'-');
        put_decimal(out, m, digits)
    } else {
        put_decimal(out, at, digits)
    }
}
