//! Numbers that look random.
ghost use Rattle.std.specs.Prelude.{◌<◌};

/// The number after this one, below 2^31.
pub(crate) fn next(random: u64) -> u64
    ensures { result < 2147483648 }
{
    random.wrapping_mul(1_103_515_245).wrapping_add(12345) % (1 << 31)
}
