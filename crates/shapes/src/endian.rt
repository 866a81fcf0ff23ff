// The byte order of a shape's numbers.
ghost use Rattle.std.specs.Prelude.{◌≡◌, Some, None, MatchResult};
ghost use Rattle.interval.specs.declared.fault.Cause.TheVariants.{ByteOrder};
ghost use Rattle.shapes.specs.Numbers.{order_of, u32_at, u64_at, f64_at};

use interval::Cause;

#[derive(Clone, Copy, PartialEq, Eq, Debug)]
pub(crate) enum Endian {
    Big,
    Little,
}

// The order that an order byte names.
impl TryFrom<u8> for Endian {
    type Error = Cause;

    ghost try_from_gives = { λ b r. MatchResult r (λ o. order_of b ≡ Some o) (λ e. (order_of b ≡ None) × (e ≡ ByteOrder)) };

    fn try_from(b: u8) -> Result<Endian, Cause> {
        match b {
            0 => Ok(Endian::Big),
            1 => Ok(Endian::Little),
            _ => Err(Cause::ByteOrder),
        }
    }
}

// One function for each number type, since each has byte-order methods of its own.
impl Endian {
    // A count or a code.
    pub(crate) fn read_u32(self, b: [u8; 4]) -> u32
        ensures { result ≡ u32_at self b }
    {
        match self {
            Endian::Big => u32::from_be_bytes(b),
            Endian::Little => u32::from_le_bytes(b),
        }
    }

    // An ordinate's bits.
    pub(crate) fn read_u64(self, b: [u8; 8]) -> u64
        ensures { result ≡ u64_at self b }
    {
        match self {
            Endian::Big => u64::from_be_bytes(b),
            Endian::Little => u64::from_le_bytes(b),
        }
    }

    // An ordinate.
    #[tactic(auto, unfolding(crate::specs::Numbers::f64_at))]
    pub(crate) fn read_f64(self, b: [u8; 8]) -> f64
        ensures { result ≡ f64_at self b }
    {
        std::num::f64_from_bits_with_nan(self.read_u64(b))
    }
}
