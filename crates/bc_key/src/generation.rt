ghost use Rattle.std.specs.Prelude.{◌↔◌, IsTrue};
ghost use Rattle.bc_key.specs.Generation.{IsStale};

/// Whether the bucket of a pointer was given up since the pointer was made: its generation is 1 to
/// 128 above the pointer's, counted modulo 256. A stale pointer's data is gone.
pub fn is_stale(bucket: u8, pointer: u8) -> bool
    ensures { IsTrue result ↔ IsStale bucket pointer }
{
    let behind = bucket.wrapping_sub(pointer);
    1 <= behind && behind <= 128
}
