// What the output positions of a frame read. It stands below the part and requires the right lengths.
#![tactic(auto)]

ghost use Rattle.std.specs.Prelude.{◌≡◌, ◌+◌, ◌-◌, ◌/◌, ◌≤◌, ◌<◌, length};
ghost use Rattle.calls.specs.Address.{address_of};
ghost use Rattle.cells.specs.Each.{each, stored};
ghost use Rattle.cells.specs.Range.{range};
ghost use Rattle.output.specs.Output.{store, byte_from, drive_at, line_at, read_at};
ghost use Rattle.output.specs.Steps.{sent, shown, clipped};
ghost use Rattle.output.specs.Time.{standing, BusyBefore};

use calls::{Signals, address_of};
use cells::copy::copy_out;
use cells::range::fill;
use cells::wrapped;
use device::Device;
use device::status::{status_one, status_two};
use judge::{Action, Judged};
use opcodes::Source;

// What the part answers when it is asked who it is, and the shorter answer to the older question.
const IDENTITY: [u8; 4] = [0x1F, 0x42, 0x00, 0x00];

const LEGACY: [u8; 2] = [0x1F, 0x65];

// What can be seen on the line in a frame: the record at its first bit, the signals, and what is lent. Array and
// register have bytes.
#[derive(Clone, Copy)]
pub struct Line<'a> {
    pub device: Device,
    pub signals: Signals,
    pub array: &'a [u8],
    pub register: &'a [u8],
    pub input: &'a [u8],
    ghost array_has_bytes: { 0 < length array.now },
    ghost register_has_bytes: { 0 < length register.now },
}

// The positions that a read drives: from `first` up to, not including, `end`. They are named in the whole output, here
// and in `clip`, since the definitions `drive_at` and `read_at` count positions from the frame's first.
#[derive(Clone, Copy)]
struct Driven {
    first: usize,
    end: usize,
    ghost ordered: { first ≤ end },
}

// The first of the driven positions that begins when no busy ticks are left; their end if there is none.
fn idle_from(busy: u64, pace: u64, driven: Driven) -> usize
    ensures { (driven.first ≤ result) × (result ≤ driven.end)
        × BusyBefore busy pace driven.first driven.end result }
{
    if busy == 0 {
        return driven.first;
    }
    if pace == 0 {
        return driven.end;
    }
    let last = ((busy - 1) / pace) as usize;
    (last + 1).clamp(driven.first, driven.end)
}

impl<'a> Line<'a> {
    // The driven positions receive the status bytes in turn: those of a busy part, and from where busy ends those of an
    // idle one.
    #[tactic(auto, using(crate::proofs::Times::shown_in_turn))]
    fn send_status(self, driven: Driven, output: &mut [u8])
        requires { driven.end ≤ length output.old }
        ensures { output.new ≡
            each
            (shown (standing self.entry.device self.entry.signals.pace) self.entry.signals.wp
            driven.first driven.end)
            output.old }
    {
        let device = self.device;
        let wp = self.signals.wp;
        let turn = idle_from(device.busy, self.signals.pace, driven);
        let busy = [status_one(device, wp), status_two(device)];
        copy_out(output, driven.first, turn, &busy, 0);
        let idle = device.passed(device.busy);
        let after = [status_one(idle, wp), status_two(idle)];
        copy_out(output, turn, driven.end, &after, (turn - driven.first) % 2);
    }

    // They receive the memory's bytes, from the frame's address on.
    #[tactic(auto, using(crate::proofs::Lines::from_address))]
    fn send_memory(self, memory: &[u8], driven: Driven, output: &mut [u8])
        requires { (0 < length memory.now) × (driven.end ≤ length output.old) }
        ensures { output.new ≡
            each
            (stored (range driven.first driven.end)
            (λ k. byte_from (store memory.now) (address_of self.entry.input.now) (k - driven.first)))
            output.old }
    {
        let start = wrapped(address_of(self.input), memory.len());
        copy_out(output, driven.first, driven.end, memory, start);
    }

    // They receive the source's bytes.
    fn send(self, source: Source, driven: Driven, output: &mut [u8])
        requires { driven.end ≤ length output.old }
        ensures { output.new ≡
            each
            (sent source (standing self.entry.device self.entry.signals.pace) self.entry.signals.wp
            (store self.entry.array.now) (store self.entry.register.now) self.entry.input.now
            driven.first driven.end)
            output.old }
    {
        match source {
            Source::Array => self.send_memory(self.array, driven, output),
            Source::Register => self.send_memory(self.register, driven, output),
            Source::Status => self.send_status(driven, output),
            Source::Identity => copy_out(output, driven.first, driven.end, &IDENTITY, 0),
            Source::Legacy => copy_out(output, driven.first, driven.end, &LEGACY, 0),
        }
    }

    // A read's whole line: the positions before and behind the driven ones read FFh.
    #[tactic(auto, using(crate::proofs::Lines::pieces))]
    fn read_out(self, source: Source, driven: Driven, output: &mut [u8])
        requires end_in_bounds { (driven.end ≤ length self.input.now) × (length self.input.now ≤ length output.old) }
        ensures { output.new ≡
            each
            (stored (range 0 (length self.entry.input.now))
            (drive_at source driven.first driven.end (standing self.entry.device self.entry.signals.pace)
            self.entry.signals.wp (store self.entry.array.now) (store self.entry.register.now) self.entry.input.now))
            output.old }
    {
        fill(output, 0, driven.first, 255);
        self.send(source, driven, output);
        fill(output, driven.end, self.input.len(), 255);
    }

    // What is on the line: a read drives its positions, and nothing else drives any.
    fn drive(self, judged: Judged, output: &mut [u8])
        requires driven_in_bounds { (judged.first + judged.driven ≤ length self.input.now)
            × (length self.input.now ≤ length output.old) }
        ensures { output.new ≡
            each
            (stored (range 0 (length self.entry.input.now))
            (line_at judged.action judged (standing self.entry.device self.entry.signals.pace) self.entry.signals.wp
            (store self.entry.array.now) (store self.entry.register.now) self.entry.input.now))
            output.old }
    {
        let first = judged.first;
        let end = first + judged.driven;
        match judged.action {
            Action::Drive(source) => self.read_out(source, Driven { first, end }, output),
            Action::Still | Action::Program | Action::Erase(_) | Action::Otp => {
                fill(output, 0, self.input.len(), 255);
            }
        }
    }

    // Each position of the frame reads what is on the line.
    #[tactic(auto, using(crate::proofs::Lines::line_clipped), unfolding(crate::specs::Output::read_at))]
    pub fn show(self, judged: Judged, output: &mut [u8])
        requires driven_in_bounds { (judged.first + judged.driven ≤ length self.input.now)
            × (length self.input.now ≤ length output.old) × ((self.signals.bits + 7) / 8 ≡ length self.input.now) }
        ensures { output.new ≡
            each
            (stored (range 0 (length self.entry.input.now))
            (read_at judged (standing self.entry.device self.entry.signals.pace) self.entry.signals.wp
            self.entry.signals.bits (store self.entry.array.now) (store self.entry.register.now) self.entry.input.now))
            output.old }
    {
        self.drive(judged, output);
        clip(output, self.input.len(), self.signals.bits);
    }
}

// In a last byte that was clocked in part, the other bits read 1.
#[tactic(auto, using(crate::proofs::Lines::clip_none, crate::proofs::Lines::clip_last))]
fn clip(output: &mut [u8], bytes: usize, bits: u64)
    requires { (bytes ≤ length output.old) × ((bits + 7) / 8 ≡ bytes) }
    ensures { output.new ≡ each (clipped bytes bits) output.old }
{
    let clocked = bits % 8;
    if clocked != 0 {
        let last = bytes - 1;
        output[last] |= 255u8 >> clocked;
    }
}
