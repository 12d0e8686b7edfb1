// The face without a frame, for callers that have only numbers and slices: the version, a fresh record, the typical settings, the status
// bytes and a look. Words that stand for nothing, such as a flag that is neither 0 nor 1, are answered with 255, and then nothing changes.
#![tactic(auto)]

ghost use Rattle.std.specs.Prelude.{◌≡◌, length};
ghost use Rattle.face_words.specs.Words.{is_settings, number_if, written_if};
ghost use Rattle.face_basics.specs.Face as face;

use device::Device;
use device::status::{status_one, status_two};
use face_words::{RECORD, SETTINGS, device_of, is_record, memory_of, pack, write};
use memories::{look, look_start};
use settings::Settings;

// The version of this face.
pub fn oxterin_version() -> u64
    ensures { result ≡ face.version }
{
    1005000
}

// A fresh record, from BPL, BP0 and the OTP-used mark.
pub fn oxterin_fresh(bpl: u64, bp0: u64, used: u64, device: &mut [u64]) -> u64
    ensures value { result ≡ number_if (face.is_fresh bpl bp0 used (length device.old)) }
    ensures device_after { device.new ≡
        written_if (face.is_fresh bpl bp0 used (length device.old)) (face.fresh_words bpl bp0 used) device.old }
{
    let words = pack(Device::fresh(bpl == 1, bp0 == 1, used == 1));
    write(bpl < 2 && bp0 < 2 && used < 2, device, RECORD, &words)
}

// The typical durations.
pub fn oxterin_typical(settings: &mut [u64]) -> u64
    ensures value { result ≡ number_if (is_settings settings.old) }
    ensures settings_after { settings.new ≡ written_if (is_settings settings.old) face.typical_words settings.old }
{
    write(true, settings, SETTINGS, &Settings::typical().ticks)
}

// The two status bytes of a record, with the level of WP.
pub fn oxterin_status(device: &[u64], wp: u64, status: &mut [u64]) -> u64
    ensures value { result ≡ number_if (face.is_status device.now wp (length status.old)) }
    ensures status_after { status.new ≡
        written_if (face.is_status device.now wp (length status.old)) (face.status_words device.now wp)
        status.old }
{
    let known = device_of(device);
    let words = [
        u64::from(status_one(known, wp == 1)),
        u64::from(status_two(known)),
    ];
    write(is_record(device) && wp < 2, status, 2, &words)
}

// Where in the array, 0, or the register, 1, a look begins, and how many bytes it has.
pub fn oxterin_look<'a>(
    array: &'a [u8],
    register: &'a [u8],
    memory: u64,
    address: u64,
    count: u64,
    place: &mut [u64],
) -> u64
    ensures value { result ≡ number_if (face.is_look memory (length place.old)) }
    ensures place_after { place.new ≡
        written_if (face.is_look memory (length place.old))
        (face.look_words memory array.now register.now address count) place.old }
{
    let chosen = memory_of(memory);
    let start = look_start(array.len(), register.len(), chosen, address as usize);
    let view = look(array, register, chosen, address as usize, count as usize);
    write(memory < 2, place, 2, &[start as u64, view.len() as u64])
}
