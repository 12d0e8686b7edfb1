// The two status bytes of a record.
ghost use Rattle.std.specs.Prelude.{◌≡◌};
ghost use Rattle.device.specs.Status.{status_one, status_two};

use crate::Device;

// Status byte 1, with the level of WP.
pub fn status_one(device: Device, wp: bool) -> u8
    ensures { result ≡ status_one device wp }
{
    128 * device.bpl as u8
        + 16 * wp as u8
        + 4 * device.bp0 as u8
        + 2 * device.wel as u8
        + device.is_busy() as u8
}

// Status byte 2.
pub fn status_two(device: Device) -> u8
    ensures { result ≡ status_two device }
{
    16 * device.rste as u8 + device.is_busy() as u8
}
