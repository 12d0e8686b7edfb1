// The built-in session: four frames on a small part whose programs take 2,000 ticks each. A line gives a frame's
// bytes, what the output reads, and status byte 1 after the call.
#![tactic(auto)]

ghost use Rattle.std.specs.Prelude.{true, ◌≡◌, ◌≤◌, ◌<◌, length, OnOk, take};
ghost use Rattle.std.specs.List.{flat_map};
ghost use Rattle.std.specs.Io.KnownBytes.{Appends};
ghost use Rattle.session.specs.Turn.{digit_of, shown, line, turn_of, line_of, session};
ghost use Rattle.device.specs.Status.{status_one};
ghost use Rattle.calls.specs.Lent.{SameMemories};
ghost use Rattle.part.specs.Frame.{lent_of};

use calls::{Call, Lent, Signals};
use device::Device;
use device::status::status_one;
use part::frame;
use settings::Settings;
use std::io;
use std::io::Write;

// A hexadecimal digit. The library's `{:02X}` would write each digit, and what is between, by a call of its own: the
// output has no buffer, and a line took twice as many writes.
fn digit(value: u8) -> u8
    requires { value < 16 }
    ensures { result ≡ digit_of value }
{
    if value < 10 {
        b'0' + value
    } else {
        b'A' - 10 + value
    }
}

// Writes a byte as two digits, and a blank behind it.
fn print_byte<W: Write>(out: &mut W, byte: u8) -> io::Result<()>
    ensures { OnOk result (Appends (W.contents out.old) (W.contents out.new) (shown byte)) }
{
    let text = [digit(byte / 16), digit(byte % 16), b' '];
    out.write_all(&text)
}

fn print_bytes<W: Write>(out: &mut W, bytes: &[u8]) -> io::Result<()>
    ensures { OnOk result (Appends (W.contents out.old) (W.contents out.new) (flat_map shown bytes.now)) }
{
    for byte in bytes {
        print_byte(out, *byte)?;
    }
    Ok(())
}

// A line: the bytes of a frame, what the output reads, and status byte 1.
fn print_line<W: Write>(out: &mut W, input: &[u8], output: &[u8], status: u8) -> io::Result<()>
    ensures { OnOk result (Appends (W.contents out.old) (W.contents out.new) (line input.now output.now status)) }
{
    print_bytes(out, input)?;
    out.write_all(b"> ")?;
    print_bytes(out, output)?;
    out.write_all(b"ST ")?;
    let text = [digit(status / 16), digit(status % 16), b'\n'];
    out.write_all(&text)
}

// A part on the bench: its record as it stands, its settings, and the memories that it is lent.
#[derive(Drop)]
struct Bench<'a> {
    device: Device,
    settings: Settings,
    lent: Lent<'a>,
}

impl Bench<'_> {
    // The line of a frame that left the part so.
    fn print_frame<W: Write>(&self, out: &mut W, input: &[u8]) -> io::Result<()>
        requires { length input.now ≤ length self.now.lent.output.now }
        ensures { OnOk result
            (Appends (W.contents out.old) (W.contents out.new)
            (line input.now (take (length input.now) self.now.lent.output.now) (status_one self.now.device true))) }
    {
        let output = &*self.lent.output;
        print_line(
            out,
            input,
            &output[..input.len()],
            status_one(self.device, true),
        )
    }

    // One frame of whole bytes with WP high that takes no time, and then its line. The record is as it was if the frame
    // was refused. Where the line could not be written, record and memories are as the frame left them.
    fn turn<W: Write>(&mut self, out: &mut W, input: &[u8], elapsed: u64) -> io::Result<()>
        requires { (length input.now ≤ 8192) × (length input.now ≤ length self.old.lent.output.now) }
        ensures value { self.new.device ≡
            (turn_of self.old.device self.old.settings input.now elapsed (lent_of self.old.lent)).reply.device }
        ensures output_after { lent_of self.new.lent ≡
            (turn_of self.old.device self.old.settings input.now elapsed (lent_of self.old.lent)).lent }
        ensures printed { OnOk result
            (Appends (W.contents out.old) (W.contents out.new)
            (line_of self.old.device self.old.settings input.now elapsed (lent_of self.old.lent))) }
        ensures same_settings { self.new.settings ≡ self.old.settings }
        ensures same_memories { SameMemories self.old.lent self.new.lent }
        ensures as_long { length self.new.lent.output.now ≡ length self.old.lent.output.now }
    {
        let signals = Signals {
            bits: 8 * input.len() as u64,
            wp: true,
            elapsed,
            pace: 0,
        };
        let call = Call {
            device: self.device,
            settings: self.settings,
            input,
            signals,
        };
        self.device = match frame(&call, &mut self.lent) {
            Ok(answer) => answer.device,
            Err(_) => self.device,
        };
        self.print_frame(out, input)
    }

    // The four frames of the session, and their lines.
    fn session<W: Write>(&mut self, out: &mut W) -> io::Result<()>
        requires { 7 ≤ length self.old.lent.output.now }
        ensures lines { OnOk result
            (Appends (W.contents out.old) (W.contents out.new)
            (session self.old.device self.old.settings (lent_of self.old.lent))) }
        ensures same_memories { SameMemories self.old.lent self.new.lent }
    {
        self.turn(out, b"\x06", 0)?;
        self.turn(out, b"\x02\x00\x00\xFE\x11\x22\x33", 1)?;
        self.turn(out, b"\x05\x00\x00", 1)?;
        self.turn(out, b"\x03\x00\x00\xFE\x00\x00\x00", 2000)
    }
}

fn main(rt: HostRuntime) -> io::Result<()> {
    let mut out = io::writer(&rt);
    let mut array = [255u8; 65536];
    let mut register = [255u8; 128];
    let mut output = [0u8; 16];
    let lent = Lent {
        array: &mut array,
        register: &mut register,
        output: &mut output,
    };
    let mut bench = Bench {
        device: Device::fresh(false, false, false),
        settings: Settings {
            ticks: [2000, 2000, 7000, 50000, 400000, 1600000, 400, 20000],
        },
        lent,
    };
    bench.session(&mut out)
}
