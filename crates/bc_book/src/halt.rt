//! What a failed call halts, and what a halt doesn't keep out.
ghost use Rattle.std.specs.Prelude.{◌≡◌};
ghost use Rattle.bc_events.specs.Columns.{outlasts_halt, halt_of_failure, halt_by, halt_after};

use bc_disk::disk::Device;
use bc_events::event::{Deed, Event, Failure, UnpinKind};

/// Whether a halt doesn't keep the deed out: it ends a claim or a pin, or a call of a device that
/// was under way.
pub fn outlasts_halt(deed: &Deed) -> bool
    ensures { result ≡ outlasts_halt deed.now }
{
    match deed {
        Deed::Release => true,
        Deed::Unpin { kind } => !matches!(kind, UnpinKind::Hold { .. }),
        Deed::CacheRead { .. } => true,
        Deed::CacheWrite { .. } => true,
        Deed::CacheBarrier => true,
        Deed::BackingRead { .. } => true,
        Deed::BackingWrite { .. } => true,
        Deed::BackingBarrier => true,
        Deed::DeviceFault { .. } => true,
        _ => false,
    }
}

// The device that a failed call halts: a read that fails halts nothing.
fn halt_of_failure(failure: &Failure) -> Option<Device>
    ensures { result ≡ halt_of_failure failure.now }
{
    match failure {
        Failure::Read { .. } => None,
        Failure::Barrier { device } => Some(*device),
        Failure::CacheWrite { .. } => Some(Device::Cache),
        Failure::BackingWrite { .. } => Some(Device::Backing),
    }
}

// The device that a deed halts.
fn halt_by(deed: &Deed) -> Option<Device>
    ensures { result ≡ halt_by deed.now }
{
    match deed {
        Deed::DeviceFault { failure } => halt_of_failure(failure),
        _ => None,
    }
}

/// The device that has halted the run after this event, where `halted` had before: that of the
/// first write or barrier that failed.
pub fn halted_after(halted: Option<Device>, event: &Event) -> Option<Device>
    ensures { result ≡ halt_after halted event.now }
{
    match halted {
        Some(device) => Some(device),
        None => halt_by(&event.deed),
    }
}
