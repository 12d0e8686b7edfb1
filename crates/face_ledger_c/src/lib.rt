// The functions of `face_ledger` as C and Rust link them, each under its own name: it hands its arguments on to the
// library, and promises what the library's function does, in the same clauses.
#![tactic(auto)]

ghost use Rattle.std.specs.Prelude.{◌≡◌};
ghost use Rattle.part.specs.Frame.{lent};
ghost use Rattle.face_frame.specs.Words.{handed, left};
ghost use Rattle.ledger.specs.Ledger.{reported};
ghost use Rattle.face_ledger.specs.Words as words;

// One call, one chip-select frame, for an account: its number is the refusal's, 0 if the call is accepted. The words of
// the record and of the running operation become what then stands, and so do the tables.
#[unsafe(no_mangle)]
pub extern "C" fn oxterin_ledger_frame(
    device: &mut [u64],
    settings: &[u64],
    signals: &[u64],
    array: &mut [u8],
    register: &mut [u8],
    input: &[u8],
    output: &mut [u8],
    answer: &mut [u64],
    account: u64,
    running: &mut [u64],
    totals: &mut [u64; 256],
    most: &mut [u64; 256],
    numbers: &mut [u64; 256],
) -> u64
    ensures { words.left_for
        (left result device.new answer.new (lent array.new register.new output.new))
        running.new totals.new most.new numbers.new ≡
        words.faced (handed device.old settings.now signals.now input.now answer.old)
        (words.ticket account running.old totals.old most.old numbers.old)
        (lent array.old register.old output.old) }
{
    face_ledger::oxterin_ledger_frame(
        device, settings, signals, array, register, input, output, answer, account, running,
        totals, most, numbers,
    )
}

// Closes a month: the three tables are handed out and then empty, and the operation that runs stays its account's,
// billed nothing so far.
#[unsafe(no_mangle)]
pub extern "C" fn oxterin_close(
    running: &mut [u64],
    totals: &mut [u64; 256],
    most: &mut [u64; 256],
    numbers: &mut [u64; 256],
    old_totals: &mut [u64; 256],
    old_most: &mut [u64; 256],
    old_numbers: &mut [u64; 256],
) -> u64
    ensures { words.closed_with result running.new
        (words.tables totals.new most.new numbers.new)
        (words.tables old_totals.new old_most.new old_numbers.new) ≡
        words.closing running.old
        (words.tables totals.old most.old numbers.old)
        (words.tables old_totals.old old_most.old old_numbers.old) }
{
    face_ledger::oxterin_close(
        running,
        totals,
        most,
        numbers,
        old_totals,
        old_most,
        old_numbers,
    )
}

// The report on an account, three words: its total, the most ticks billed for one of its operations, and the number of
// its operations.
#[unsafe(no_mangle)]
pub extern "C" fn oxterin_report<'a>(
    totals: &'a [u64; 256],
    most: &'a [u64; 256],
    numbers: &'a [u64; 256],
    account: u64,
    line: &mut [u64],
) -> u64
    ensures value { result ≡ words.report_number (reported account totals.now most.now numbers.now) line.old }
    ensures line_after { line.new ≡
        words.report_words (reported account totals.now most.now numbers.now) line.old }
{
    face_ledger::oxterin_report(totals, most, numbers, account, line)
}
