// Numbers read off a field.
ghost use Rattle.std.specs.Prelude.{◌≡◌};
ghost use Rattle.text.specs.Number.{digit_of, with_digit, next_digit, digits_from, leading_zero, decimal_of, negative_of, signed_of, bits_of};

// The value of a digit, 0 to 9 or A to F.
#[tactic(auto, unfolding(crate::specs::Number::digit_of))]
fn digit_of(b: u8) -> Option<u64>
    ensures { result ≡ digit_of b }
{
    match b {
        b'0'..=b'9' => Some(u64::from(b - b'0')),
        b'A'..=b'F' => Some(u64::from(b - b'A') + 10),
        _ => None,
    }
}

// The number with one digit more, where it is a digit of the base and the number stays within most.
#[tactic(auto, unfolding(crate::specs::Number::with_digit))]
fn with_digit(base: u64, most: u64, number: u64, d: u64) -> Option<u64>
    ensures { result ≡ with_digit base most number d }
{
    if base <= d {
        return None;
    }
    let longer = number.checked_mul(base)?.checked_add(d)?;
    if most < longer {
        return None;
    }
    Some(longer)
}

#[tactic(auto, unfolding(crate::specs::Number::next_digit))]
fn next_digit(base: u64, most: u64, number: u64, b: u8) -> Option<u64>
    ensures { result ≡ next_digit base most number b }
{
    with_digit(base, most, number, digit_of(b)?)
}

// The number that the digits of the base are, at most most.
#[tactic(auto, unfolding(crate::specs::Number::digits_from))]
fn digits(f: &[u8], base: u64, most: u64) -> Option<u64>
    ensures { result ≡ digits_from base most 0 f.now }
{
    let mut number = 0;
    for b in f {
        number = next_digit(base, most, number, *b)?;
    }
    Some(number)
}

// Whether a 0 stands in front of something.
#[tactic(auto, unfolding(crate::specs::Number::leading_zero))]
fn leading_zero(f: &[u8]) -> bool
    ensures { result ≡ leading_zero f.now }
{
    matches!(f, [b'0', _, ..])
}

// The decimal that the bytes are: digits alone, no leading zero, at most most.
#[tactic(auto, unfolding(crate::specs::Number::decimal_of))]
pub fn decimal(f: &[u8], most: u64) -> Option<u64>
    ensures { result ≡ decimal_of most f.now }
{
    if f.is_empty() || leading_zero(f) {
        return None;
    }
    digits(f, 10, most)
}

// The number below 0 whose digits are those of v.
#[tactic(auto, unfolding(crate::specs::Number::negative_of))]
fn negative(v: u64) -> Option<i64>
    ensures { result ≡ negative_of (Some v) }
{
    let rest = i64::try_from(v.checked_sub(1)?).ok()?;
    Some(-1 - rest)
}

// The signed decimal that the bytes are: a minus only before a number that is not 0.
#[tactic(auto, unfolding(crate::specs::Number::signed_of, crate::specs::Number::starts_minus, crate::specs::Number::positive_of))]
pub fn signed_decimal(f: &[u8]) -> Option<i64>
    ensures { result ≡ signed_of f.now }
{
    match f {
        [b'-', rest @ ..] => negative(decimal(rest, 1 << 63)?),
        _ => i64::try_from(decimal(f, 1 << 63)?).ok(),
    }
}

// The 64 bits that 16 upper-case hex digits are.
#[tactic(auto, unfolding(crate::specs::Number::bits_of))]
pub fn bits(f: &[u8]) -> Option<u64>
    ensures { result ≡ bits_of f.now }
{
    if f.len() == 16 {
        digits(f, 16, u64::MAX)
    } else {
        None
    }
}
