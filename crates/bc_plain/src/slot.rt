//! One sector of a plain device.
ghost use Rattle.std.specs.Prelude.{◌≡◌, ◌↔◌, IfOk, IsTrue};
ghost use Rattle.bc_disk.specs.Device.{Among, instead, besides};

use bc_model::sector::Sector;
use std::alloc::{AllocError, Global};
use std::marker::Model;

// What a read of a sector may give, and what a crash may leave there.
#[derive(Drop)]
pub(crate) struct Slot {
    reads: Vec<Sector>,
    leaves: Vec<Sector>,
}

impl Model for Slot {
    ghost use Rattle.bc_plain.specs.PlainDevice.{Choices};

    ghost Value = { Choices };

    ghost view = { λ s. record { reads = s.reads.items; leaves = s.leaves.items } };
}

// The value in the place of the old ones, or the old ones where there is none.
fn instead(alloc: Global, value: Option<Sector>, old: &[Sector]) -> Result<Vec<Sector>, AllocError>
    ensures { IfOk result (λ values. values.items ≡ instead value old.now) }
{
    match value {
        Some(value) => Vec::from_slice(alloc, &[value]),
        None => Vec::from_slice(alloc, old),
    }
}

// The value and the old ones.
fn besides(alloc: Global, value: Option<Sector>, old: &[Sector]) -> Result<Vec<Sector>, AllocError>
    ensures { IfOk result (λ values. values.items ≡ besides value old.now) }
{
    let mut values = Vec::new(alloc);
    if let Some(value) = value {
        values.push(value)?;
    }
    values.extend_from_slice(old)?;
    Ok(values)
}

// Whether the value is one of these.
fn is_among(value: &[u8], values: &[Sector]) -> bool
    ensures { IsTrue result ↔ Among value.now values.now }
{
    let mut found = false;
    for other in values {
        found |= other.as_slice() == value;
    }
    found
}

impl Slot {
    ghost use Rattle.bc_plain.specs.PlainDevice.{quiet_choices, written_choices, failed_choices, settled_choices};

    // A sector that holds this value alone.
    pub(crate) fn quiet(alloc: Global, value: Sector) -> Result<Slot, AllocError>
        ensures { IfOk result (λ s. s ≡ quiet_choices value) }
    {
        Ok(Slot {
            reads: Vec::from_slice(alloc, &[value])?,
            leaves: Vec::from_slice(alloc, &[value])?,
        })
    }

    // After a good write, which gives the sector this value or none.
    pub(crate) fn written(&self, value: Option<Sector>) -> Result<Slot, AllocError>
        ensures { IfOk result (λ s. s ≡ written_choices value self.now) }
    {
        let alloc = *self.reads.allocator();
        Ok(Slot {
            reads: instead(alloc, value, &self.reads)?,
            leaves: besides(alloc, value, &self.leaves)?,
        })
    }

    // After a failed write, which was to give the sector this value or none.
    pub(crate) fn failed(&self, value: Option<Sector>) -> Result<Slot, AllocError>
        ensures { IfOk result (λ s. s ≡ failed_choices value self.now) }
    {
        let alloc = *self.reads.allocator();
        Ok(Slot {
            reads: besides(alloc, value, &self.reads)?,
            leaves: besides(alloc, value, &self.leaves)?,
        })
    }

    // After a good barrier.
    pub(crate) fn settled(&self) -> Result<Slot, AllocError>
        ensures { IfOk result (λ s. s ≡ settled_choices self.now) }
    {
        let alloc = *self.reads.allocator();
        Ok(Slot {
            reads: Vec::from_slice(alloc, &self.reads)?,
            leaves: Vec::from_slice(alloc, &self.reads)?,
        })
    }

    // Whether a read may give this value.
    pub(crate) fn may_read(&self, value: &[u8]) -> bool
        ensures { IsTrue result ↔ Among value.now self.now.reads }
    {
        is_among(value, &self.reads)
    }

    // Whether a crash may leave this value.
    pub(crate) fn may_leave(&self, value: &[u8]) -> bool
        ensures { IsTrue result ↔ Among value.now self.now.leaves }
    {
        is_among(value, &self.leaves)
    }
}
