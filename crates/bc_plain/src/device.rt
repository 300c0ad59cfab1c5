//! What a device may read and what a crash may leave on it, sector by sector.
ghost use Rattle.std.specs.Prelude.{◌≡◌, ◌↔◌, ◌/◌, length, IfOk, OnOk, OnErr, IsTrue};
ghost use Rattle.bc_disk.specs.Bytes.{image_of};
ghost use Rattle.bc_disk.specs.Device.{quiet, written, failed, settled};

use crate::image::{sector_of, value_at, value_of};
use crate::slot::Slot;
use bc_model::values::Values;
use std::alloc::{AllocError, Global};
use std::marker::Model;

/// A small device: for each of its sectors the values that a read may give and those that a crash
/// may leave. Each change takes memory for a whole new device, and where there is none the device
/// is as before.
#[derive(Drop)]
pub struct PlainDevice {
    slots: Vec<Slot>,
}

impl Model for PlainDevice {
    ghost use Rattle.std.specs.Prelude.{List};
    ghost use Rattle.bc_plain.specs.PlainDevice.{Choices};

    ghost Value = { List Choices };

    ghost view = { λ d. d.slots.items };
}

impl PlainDevice {
    ghost use Rattle.bc_plain.specs.PlainDevice.{content_of, SameBelow, AmongBelow};

    /// A device of the whole sectors of these bytes, each of which reads its bytes and keeps them
    /// in a crash.
    pub fn new(alloc: Global, bytes: &[u8]) -> Result<PlainDevice, AllocError>
        ensures sectors { IfOk result (λ device. length device ≡ length bytes.now / 512) }
        ensures quiet { IfOk result (λ device.
            SameBelow (length device) (content_of device) (quiet (image_of bytes.now))) }
    {
        let mut slots = Vec::new(alloc);
        for sector in 0..bytes.len() / 512 {
            let value = value_of(bytes, sector as u64);
            slots.push(Slot::quiet(alloc, value)?)?;
        }
        Ok(PlainDevice { slots })
    }

    /// The number of sectors.
    pub fn sectors(&self) -> usize
        ensures { result ≡ length self.now }
    {
        self.slots.len()
    }

    /// A good write of these values from sector `first` on. Values past the end of the device are
    /// left out. Where no memory is found, the device is as before.
    pub fn write(&mut self, first: u64, values: &Values) -> Result<(), AllocError>
        ensures sectors { length self.new ≡ length self.old }
        ensures ok { OnOk result (SameBelow (length self.new) (content_of self.new)
            (written first values.now (content_of self.old))) }
        ensures err { OnErr result (self.new ≡ self.old) }
    {
        let mut slots = Vec::new(*self.slots.allocator());
        for (sector, slot) in self.slots.iter().enumerate() {
            let value = value_at(first, values, sector as u128);
            slots.push(slot.written(value)?)?;
        }
        self.slots = slots;
        Ok(())
    }

    /// A write of these values from sector `first` on that failed. Values past the end of the
    /// device are left out. Where no memory is found, the device is as before.
    pub fn fail(&mut self, first: u64, values: &Values) -> Result<(), AllocError>
        ensures sectors { length self.new ≡ length self.old }
        ensures ok { OnOk result (SameBelow (length self.new) (content_of self.new)
            (failed first values.now (content_of self.old))) }
        ensures err { OnErr result (self.new ≡ self.old) }
    {
        let mut slots = Vec::new(*self.slots.allocator());
        for (sector, slot) in self.slots.iter().enumerate() {
            let value = value_at(first, values, sector as u128);
            slots.push(slot.failed(value)?)?;
        }
        self.slots = slots;
        Ok(())
    }

    /// A good barrier. Where no memory is found, the device is as before.
    pub fn settle(&mut self) -> Result<(), AllocError>
        ensures sectors { length self.new ≡ length self.old }
        ensures ok { OnOk result (SameBelow (length self.new) (content_of self.new)
            (settled (content_of self.old))) }
        ensures err { OnErr result (self.new ≡ self.old) }
    {
        let mut slots = Vec::new(*self.slots.allocator());
        for slot in &self.slots {
            slots.push(slot.settled()?)?;
        }
        self.slots = slots;
        Ok(())
    }

    /// Whether reads of the device's sectors may give this image of them.
    pub fn may_read(&self, image: &[u8]) -> bool
        ensures { IsTrue result
            ↔ AmongBelow (length self.now) (image_of image.now) (content_of self.now).reads }
    {
        let mut may = true;
        for (sector, slot) in self.slots.iter().enumerate() {
            may &= slot.may_read(sector_of(image, sector as u128));
        }
        may
    }

    /// Whether a crash may leave this image of the device's sectors, each sector by itself.
    pub fn may_leave(&self, image: &[u8]) -> bool
        ensures { IsTrue result
            ↔ AmongBelow (length self.now) (image_of image.now) (content_of self.now).leaves }
    {
        let mut may = true;
        for (sector, slot) in self.slots.iter().enumerate() {
            may &= slot.may_leave(sector_of(image, sector as u128));
        }
        may
    }
}
