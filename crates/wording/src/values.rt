// The numbers and the update that the fields of a line are.
ghost use Rattle.std.specs.Prelude.{◌≡◌};
ghost use Rattle.std.specs.Float.Ieee.{of_bits};
ghost use Rattle.std.specs.Float.{binary64};
ghost use Rattle.wording.specs.Values.{number_at, signed_at, measure_at, update_name_of, update_field_at};

use cells::{Cell, Update};
use text::field::field;
use text::number::{bits, decimal, signed_decimal};

// The name by which an update says what it does.
#[derive(Clone, Copy, Debug, PartialEq, Eq)]
pub enum UpdateName {
    Blank,
    Count,
    Measure,
    Add,
}

// Field k as a number without a minus, within 64 signed bits.
#[tactic(auto, unfolding(crate::specs::Values::number_at))]
pub fn number_at(line: &[u8], k: usize) -> Option<u64>
    ensures { result ≡ number_at k line.now }
{
    decimal(field(line, k), i64::MAX as u64)
}

// The name that a field is.
#[tactic(auto, unfolding(crate::specs::Values::update_name_of))]
pub fn update_name_of(f: &[u8]) -> Option<UpdateName>
    ensures { result ≡ update_name_of f.now }
{
    match f {
        b"blank" => Some(UpdateName::Blank),
        b"count" => Some(UpdateName::Count),
        b"measure" => Some(UpdateName::Measure),
        b"add" => Some(UpdateName::Add),
        _ => None,
    }
}

// The measured number of a pattern. Every pattern of a NaN gives the one NaN.
fn float_of(n: u64) -> f64
    ensures { result ≡ of_bits binary64 n }
{
    if 0x7FF0_0000_0000_0000 < n % 0x8000_0000_0000_0000 {
        return 0.0 / 0.0;
    }
    f64::from_bits(n)
}

// Field 4 as a signed number.
#[tactic(auto, unfolding(crate::specs::Values::signed_at))]
fn signed_at(line: &[u8]) -> Option<i64>
    ensures { result ≡ signed_at line.now }
{
    signed_decimal(field(line, 4))
}

// Field 4 as a measured number.
#[tactic(auto, unfolding(crate::specs::Values::measure_at))]
fn measure_at(line: &[u8]) -> Option<f64>
    ensures { result ≡ measure_at line.now }
{
    Some(float_of(bits(field(line, 4))?))
}

// The update that fields 3 and 4 are, of a line with n commas.
#[tactic(auto, unfolding(crate::specs::Values::update_field_at, crate::specs::Values::update_by))]
pub fn update_at(line: &[u8], n: usize) -> Option<Update>
    ensures { result ≡ update_field_at n line.now }
{
    match (update_name_of(field(line, 3))?, n) {
        (UpdateName::Blank, 3) => Some(Update::Set(Cell::Blank)),
        (UpdateName::Count, 4) => Some(Update::Set(Cell::Count(signed_at(line)?))),
        (UpdateName::Measure, 4) => Some(Update::Set(Cell::Measure(measure_at(line)?))),
        (UpdateName::Add, 4) => Some(Update::Add(signed_at(line)?)),
        _ => None,
    }
}
