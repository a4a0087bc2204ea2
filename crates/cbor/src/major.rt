// The eight major types of RFC 8949.
ghost use Rattle.std.specs.Prelude.{◌≡◌};
ghost use Rattle.cbor.specs.Major.{number_of};

#[derive(Clone, Copy, Debug, PartialEq, Eq)]
pub enum Major {
    Unsigned,
    Negative,
    Bytes,
    Text,
    Array,
    Map,
    Tag,
    Simple,
}

// The number of a major type, which the three high bits of an initial byte hold.
pub fn number_of(major: Major) -> u8
    ensures { result ≡ number_of major }
{
    major as u8
}
