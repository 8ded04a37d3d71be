//! The one error of a device.
ghost use Rattle.std.specs.Prelude.{codes, Some};

use std::error::Error;
use std::fmt;

/// A step of a device that was not done. The device's count of faults rose.
#[derive(Clone, Copy, Debug, PartialEq, Eq)]
pub struct DeviceFault;

impl fmt::Display for DeviceFault {
    ghost output = { λ _. Some (codes "device fault") };

    fn fmt<W: fmt::Write>(&self, f: &mut fmt::Formatter<W>) -> fmt::Result {
        write!(f, "device fault")
    }
}

impl Error for DeviceFault {}
