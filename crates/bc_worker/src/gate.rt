//! Points on the way of a request, at which a test may hold a seat.
use bc_disk::disk::Device;
use std::sync::Wait;

/// A point on the way of a request.
#[derive(Clone, Copy, Debug, PartialEq, Eq, Drop)]
pub enum Point {
    /// Before a read of this device.
    BeforeRead(Device),
}

/// What happens at each point that a seat comes to.
pub trait Gate {
    /// The seat of this number has come to the point. At `BeforeRead` it holds the device alone, and
    /// else no part.
    fn at<R: Wait>(&self, rt: &R, seat: u32, point: Point);
}

/// The gate that holds nobody.
#[derive(Clone, Copy, Drop)]
pub struct NoGate;

impl Gate for NoGate {
    fn at<R: Wait>(&self, _rt: &R, _seat: u32, _point: Point) {}
}
