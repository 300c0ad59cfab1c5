//! Keys without pointers.
ghost use Rattle.std.specs.Prelude.{◌+◌, ◌<◌, ◌≤◌, ◌^◌, IfOk};
ghost use Rattle.bc_bypass.specs.Empty.{AreEmpty};

use bc_key::Key;
use bc_keys::Keys;
use std::alloc::{AllocError, Global};

/// Keys without pointers for so many sectors from `first` on, one behind the other, each with as
/// many sectors as a bucket has but for the last one.
pub(crate) fn empty_keys(
    alloc: Global,
    first: u64,
    count: u32,
    bucket: u16,
) -> Result<Keys, AllocError>
    requires some { 0 < bucket }
    requires range { first + count < 2 ^ 64 }
    ensures { IfOk result (λ keys. AreEmpty bucket first (first + count) keys) }
{
    let mut keys = Vec::new(alloc);
    let mut done = 0;
    while done < count {
        let more = (count - done).min(u32::from(bucket));
        done += more;
        keys.push(Key::new(first + u64::from(done), more as u16, false, None))?;
    }
    Ok(Keys::from_vec(keys))
}
