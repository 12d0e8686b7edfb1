// The functions of `face_frame` as C and Rust link them, each under its own name: it hands its arguments on to the
// library, and promises what the library's function does, in the same clauses.
#![tactic(auto)]

ghost use Rattle.std.specs.Prelude.{◌≡◌};
ghost use Rattle.part.specs.Frame.{lent};
ghost use Rattle.face_frame.specs.Words as words;

// One call, one chip-select frame: its number is the refusal's, 0 if the call is accepted. The record's words become
// those of the record as it then stands.
#[unsafe(no_mangle)]
pub extern "C" fn oxterin_frame(
    device: &mut [u64],
    settings: &[u64],
    signals: &[u64],
    array: &mut [u8],
    register: &mut [u8],
    input: &[u8],
    output: &mut [u8],
    answer: &mut [u64],
) -> u64
    ensures { words.left result device.new answer.new (lent array.new register.new output.new) ≡
        words.faced
        (words.handed device.old settings.now signals.now input.now answer.old)
        (lent array.old register.old output.old) }
{
    face_frame::oxterin_frame(
        device, settings, signals, array, register, input, output, answer,
    )
}
