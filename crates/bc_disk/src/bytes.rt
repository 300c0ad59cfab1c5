//! The bytes of whole sectors.
ghost use Rattle.std.specs.Prelude.{◌≡◌, ◌+◌, ◌*◌, ◌≤◌, length};
ghost use Rattle.bc_disk.specs.Bytes.{put};

// Puts whole sectors in the place of those from `at` on.
pub(crate) fn put(disk: &mut [u8], at: u64, bytes: &[u8])
    requires { 512 * at + length bytes.now ≤ length disk.old }
    ensures { disk.new ≡ put at bytes.now disk.old }
{
    let start = 512 * at as usize;
    let end = start + bytes.len();
    disk[start..end].copy_from_slice(bytes);
}
