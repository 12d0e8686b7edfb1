// What a call is handed, and why it is refused: the bytes of a frame, the signals beside them, and how long the lent memories are. What a
// caller can break is refused and not required. It sees no byte of the lent memories.
#![tactic(auto)]

ghost use Rattle.std.specs.Prelude.{◌≡◌, get_or, length};
ghost use Rattle.calls.specs.Address.{address_of};
ghost use Rattle.calls.specs.Refusal.{bytes_for, lengths_of, refusal_of};

use device::Device;
use memories::{is_array, is_register};
use refusals::Refusal;
use settings::Settings;

// How many bits are clocked, whether WP is high from the first to the last of them, how many ticks came between the last call and this one,
// and how many each byte position takes, whole or not.
#[derive(Clone, Copy)]
pub struct Signals {
    pub bits: u64,
    pub wp: bool,
    pub elapsed: u64,
    pub pace: u64,
}

// What a call is handed, beside what is lent: the record, the settings, the bytes of the frame, and the signals.
#[derive(Clone, Copy)]
pub struct Call<'a> {
    pub device: Device,
    pub settings: Settings,
    pub input: &'a [u8],
    pub signals: Signals,
}

// What a call is lent: the array, the security register and the output buffer.
#[derive(Drop)]
pub struct Lent<'a> {
    pub array: &'a mut [u8],
    pub register: &'a mut [u8],
    pub output: &'a mut [u8],
}

// How long the lent array, the lent register, the input and the lent output buffer are.
#[derive(Clone, Copy)]
pub struct Lengths {
    pub array: usize,
    pub register: usize,
    pub input: usize,
    pub output: usize,
}

impl Lent<'_> {
    // How long the lent memories are, and so many bytes of input.
    pub fn lengths(&self, input: usize) -> Lengths
        ensures { result ≡ lengths_of (length self.now.array.now) (length self.now.register.now) input (length self.now.output.now) }
    {
        Lengths {
            array: self.array.len(),
            register: self.register.len(),
            input,
            output: self.output.len(),
        }
    }
}

// The most bytes that a frame may have.
const MOST: usize = 8192;

// The most ticks that a byte position may take.
const SLOWEST: u64 = 1000;

// The byte at a position, or 0 if the frame is shorter.
pub fn byte_at(input: &[u8], position: usize) -> u8
    ensures { result ≡ get_or input.now position 0 }
{
    input.get(position).copied().unwrap_or(0)
}

// The three bytes after the opcode, high first; missing ones are 0. A frame that has all three is tested once.
pub fn address_of(input: &[u8]) -> usize
    ensures { result ≡ address_of input.now }
{
    if input.len() < 4 {
        return usize::from(byte_at(input, 1)) * 65536 + usize::from(byte_at(input, 2)) * 256;
    }
    usize::from(input[1]) * 65536 + usize::from(input[2]) * 256 + usize::from(input[3])
}

// The bytes that so many bits need, for any number of bits: a frame has as many positions.
pub fn bytes_for(bits: u64) -> u64
    ensures { result ≡ bytes_for bits }
{
    bits / 8 + (bits % 8 + 7) / 8
}

// Why a call is refused, by the first in the papers' order that applies.
#[tactic(auto, unfolding(crate::specs::Refusal::refusal_of))]
pub fn refusal_of(call: &Call<'_>, lengths: Lengths) -> Result<(), Refusal>
    ensures { result ≡ refusal_of call.now.device call.now.settings call.now.signals lengths }
{
    if !is_array(lengths.array) {
        return Err(Refusal::ArrayLength);
    }
    if !is_register(lengths.register) {
        return Err(Refusal::RegisterLength);
    }
    if MOST < lengths.input {
        return Err(Refusal::InputLength);
    }
    if bytes_for(call.signals.bits) != lengths.input as u64 {
        return Err(Refusal::BitCount);
    }
    if lengths.output < lengths.input {
        return Err(Refusal::OutputLength);
    }
    if call.device.is_unsound() {
        return Err(Refusal::Record);
    }
    if call.settings.is_unfair() {
        return Err(Refusal::Duration);
    }
    if SLOWEST < call.signals.pace {
        return Err(Refusal::Pace);
    }
    Ok(())
}
