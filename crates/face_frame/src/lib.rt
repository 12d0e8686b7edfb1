// A frame for callers that have only numbers and memories: words that stand for nothing are answered with 255, and then nothing changes.
#![tactic(auto)]

ghost use Rattle.std.specs.Prelude.{◌≡◌, length};
ghost use Rattle.part.specs.Frame.{lent, reply_of};
ghost use Rattle.face_words.specs.Words.{record_lent, answer_lent, packed, answer_of, written_if};
ghost use Rattle.face_frame.specs.Words as words;

use calls::{Call, Lent};
use device::Device;
use face_words::{
    RECORD, UNREAD, cause_number, device_of, is_answer, is_record, is_settings, is_signals,
    outcome_number, pack, settings_of, signals_of, tell, write,
};
use part::{Answer, frame};
use refusals::Refusal;

// What came of a call, as words: the record's, the answer's, as far as these are lent, and the number of the refusal. A
// refused call leaves the record that was handed in, and nothing is told of it but its number.
pub fn reply(
    before: Device,
    came: Result<Answer, Refusal>,
    device: &mut [u64],
    answer: &mut [u64],
) -> u64
    ensures value { result ≡ (reply_of before came).refusal }
    ensures device_after { device.new ≡
        written_if (record_lent (length device.old)) (packed (reply_of before came).device) device.old }
    ensures answer_after { answer.new ≡
        written_if (answer_lent (length answer.old)) (answer_of (reply_of before came)) answer.old }
{
    match came {
        Ok(told) => {
            write(true, device, RECORD, &pack(told.device));
            tell(
                answer,
                outcome_number(told.outcome),
                told.first as u64,
                told.driven as u64,
                cause_number(told.outcome),
            );
            0
        }
        Err(refusal) => {
            write(true, device, RECORD, &pack(before));
            tell(answer, 0, 0, 0, 0);
            u64::from(refusal.number())
        }
    }
}

// One call, one chip-select frame: its number is the refusal's, 0 if the call is accepted. The record's words become those of the record
// as it then stands.
pub fn oxterin_frame(
    device: &mut [u64],
    settings: &[u64],
    signals: &[u64],
    array: &mut [u8],
    register: &mut [u8],
    input: &[u8],
    output: &mut [u8],
    answer: &mut [u64],
) -> u64
    ensures { words.left result device.new answer.new (lent array.new register.new output.new) ≡
        words.faced
        (words.handed device.old settings.now signals.now input.now answer.old)
        (lent array.old register.old output.old) }
{
    if is_record(device) & is_settings(settings) & is_signals(signals) & is_answer(answer.len()) {
        let call = Call {
            device: device_of(device),
            settings: settings_of(settings),
            input,
            signals: signals_of(signals),
        };
        let mut lent = Lent {
            array,
            register,
            output,
        };
        let came = frame(&call, &mut lent);
        return reply(call.device, came, device, answer);
    }
    UNREAD
}
