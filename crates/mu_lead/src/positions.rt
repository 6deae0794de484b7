//! Positions as numbers of 16 bits.
ghost use Rattle.std.specs.Prelude.{length, min, ◌<◌, ◌≡◌};

/// The number in 16 bits, if it fits.
pub(crate) fn narrow(x: u64) -> u16
    ensures fits { x < 65536 → result ≡ x }
    ensures least { result ≡ min x 65535 }
{
    x.min(65_535) as u16
}

/// The first position after the values.
pub(crate) fn end_of(known: &[u16]) -> u16
    ensures { length known.now < 65536 → result ≡ length known.now }
{
    narrow(known.len() as u64)
}
