// The functions of `face_basics` as C and Rust link them, each under its own name: it hands its arguments on to the
// library, and promises what the library's function does, in the same clauses.
#![tactic(auto)]

ghost use Rattle.std.specs.Prelude.{◌≡◌, length};
ghost use Rattle.face_words.specs.Words.{is_settings, number_if, written_if};
ghost use Rattle.face_basics.specs.Face as face;

// The version of this face.
#[unsafe(no_mangle)]
pub extern "C" fn oxterin_version() -> u64
    ensures { result ≡ face.version }
{
    face_basics::oxterin_version()
}

// A fresh record, from BPL, BP0 and the OTP-used mark.
#[unsafe(no_mangle)]
pub extern "C" fn oxterin_fresh(bpl: u64, bp0: u64, used: u64, device: &mut [u64]) -> u64
    ensures value { result ≡ number_if (face.is_fresh bpl bp0 used (length device.old)) }
    ensures device_after { device.new ≡
        written_if (face.is_fresh bpl bp0 used (length device.old)) (face.fresh_words bpl bp0 used) device.old }
{
    face_basics::oxterin_fresh(bpl, bp0, used, device)
}

// The typical durations.
#[unsafe(no_mangle)]
pub extern "C" fn oxterin_typical(settings: &mut [u64]) -> u64
    ensures value { result ≡ number_if (is_settings settings.old) }
    ensures settings_after { settings.new ≡ written_if (is_settings settings.old) face.typical_words settings.old }
{
    face_basics::oxterin_typical(settings)
}

// The two status bytes of a record, with the level of WP.
#[unsafe(no_mangle)]
pub extern "C" fn oxterin_status(device: &[u64], wp: u64, status: &mut [u64]) -> u64
    ensures value { result ≡ number_if (face.is_status device.now wp (length status.old)) }
    ensures status_after { status.new ≡
        written_if (face.is_status device.now wp (length status.old)) (face.status_words device.now wp)
        status.old }
{
    face_basics::oxterin_status(device, wp, status)
}

// Where in the array, 0, or the register, 1, a look begins, and how many bytes it has.
#[unsafe(no_mangle)]
pub extern "C" fn oxterin_look<'a>(
    array: &'a [u8],
    register: &'a [u8],
    memory: u64,
    address: u64,
    count: u64,
    place: &mut [u64],
) -> u64
    ensures value { result ≡ number_if (face.is_look memory (length place.old)) }
    ensures place_after { place.new ≡
        written_if (face.is_look memory (length place.old))
        (face.look_words memory array.now register.now address count) place.old }
{
    face_basics::oxterin_look(array, register, memory, address, count, place)
}
