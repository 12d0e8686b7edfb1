// The part itself: a chip-select frame, from its first bit to the rise, on memories that the caller lends.
#![tactic(auto)]

ghost use Rattle.std.specs.Prelude.{◌≡◌, ◌*◌, ◌≤◌};
ghost use Rattle.refusals.specs.Refusals.{number_of};
ghost use Rattle.calls.specs.Refusal.{bytes_for};
ghost use Rattle.calls.specs.Lent.{SameMemories};
ghost use Rattle.part.specs.Frame as spec;

use calls::{Call, Lengths, Lent, Signals, address_of, byte_at, bytes_for, refusal_of};
use device::Device;
use judge::{Facts, Outcome, judge};
use operations::{Range, carry_out};
use output::Line;
use refusals::Refusal;

// The outcome of an accepted call with its cause, the first driven position, how many are driven, the range of the
// array that it covered, and the record as it then stands.
#[derive(Clone, Copy)]
pub struct Answer {
    pub outcome: Outcome,
    pub first: usize,
    pub driven: usize,
    pub covered: Range,
    pub device: Device,
}

// The ticks that a frame takes.
fn ticks_of(signals: Signals) -> u64
    requires { (signals.bits ≤ 65536) × (signals.pace ≤ 1000) }
    ensures { result ≡ bytes_for signals.bits * signals.pace }
{
    bytes_for(signals.bits) * signals.pace
}

// What judging needs to know of a frame, and of the part at its first bit.
fn facts_of(call: &Call<'_>, busy: bool) -> Facts
    ensures { result ≡ spec.facts_for call.now.input.now call.now.signals busy }
{
    Facts {
        code: byte_at(call.input, 0),
        second: byte_at(call.input, 1),
        address: address_of(call.input),
        bytes: call.input.len(),
        bits: call.signals.bits,
        wp: call.signals.wp,
        busy,
    }
}

// The refusal of a call that somebody above the part turns away, for one of their own: the part's comes first. Of what
// is lent it asks the lengths alone.
pub fn turned_away(refusal: Refusal, call: &Call<'_>, lengths: Lengths) -> Refusal
    ensures { spec.reply_of call.now.device (Err result) ≡
        spec.turned_away_by (number_of refusal) (spec.call_of call.now) lengths }
{
    match refusal_of(call, lengths) {
        Ok(()) => refusal,
        Err(own) => own,
    }
}

// An accepted call: time passes up to the frame's first bit and on to its rise, the frame is judged, the output shows
// what the part drives, and what is to be done is done.
fn served(call: &Call<'_>, lent: &mut Lent<'_>) -> Answer
    requires { spec.number_for (spec.call_of call.now)
        (spec.lengths_of (spec.call_of call.now) (spec.lent_of lent.old)) ≡ 0 }
    ensures answer { spec.result_of call.now.device (Ok result) (spec.lent_of lent.new) ≡
        spec.served (spec.call_of call.now) (spec.lent_of lent.old) }
    ensures same_memories { SameMemories lent.old lent.new }
{
    let timed = call.device.passed(call.signals.elapsed);
    let risen = timed.passed(ticks_of(call.signals));
    let judged = judge(risen, call.settings, facts_of(call, timed.is_busy()));
    let array = &mut *lent.array;
    let register = &mut *lent.register;
    let output = &mut *lent.output;
    let line = Line {
        device: timed,
        signals: call.signals,
        array,
        register,
        input: call.input,
    };
    line.show(judged, output);
    let covered = carry_out(judged.action, array, register, call.input);
    Answer {
        outcome: judged.outcome,
        first: judged.first,
        driven: judged.driven,
        covered,
        device: judged.device,
    }
}

// One call, one frame: whatever is handed in, it ends, and answers as the definition of a frame says. A refused call
// leaves the record with the caller as it was, and every lent byte.
pub fn frame(call: &Call<'_>, lent: &mut Lent<'_>) -> Result<Answer, Refusal>
    ensures meets { spec.Meets (spec.call_of call.now) (spec.lent_of lent.old) result (spec.lent_of lent.new) }
    ensures same_memories { SameMemories lent.old lent.new }
{
    refusal_of(call, lent.lengths(call.input.len()))?;
    Ok(served(call, lent))
}
