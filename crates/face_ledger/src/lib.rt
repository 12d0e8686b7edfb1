// Frames through the ledger, and its report, for callers that have only numbers and memories: words that stand for
// nothing are answered with 255, and then nothing changes.
#![tactic(auto)]

ghost use Rattle.std.specs.Prelude.{true, ◌≡◌};
ghost use Rattle.part.specs.Frame.{lent};
ghost use Rattle.face_words.specs.Words.{written_if};
ghost use Rattle.face_frame.specs.Words.{handed, left, call_of};
ghost use Rattle.ledger.specs.Ledger.{reported};
ghost use Rattle.ledger_frame.specs.Frame as through;
ghost use Rattle.face_ledger.specs.Words as words;

use calls::{Call, Lent};
use face_frame::reply;
use face_words::{
    UNREAD, device_of, is_answer, is_lent, is_record, is_settings, is_signals, settings_of,
    signals_of, word, write,
};
use ledger::{Ledger, Running};
use ledger_frame::frame_for;

// How many words the running operation has.
const RUNNING: usize = 2;

// How many words the report has.
const REPORT: usize = 3;

// The running operation that its words stand for.
fn running_of(running: &[u64]) -> Running
    ensures { result ≡ words.running_of running.now }
{
    Running {
        account: word(running, 0),
        billed: word(running, 1),
    }
}

// The running operation's words, as far as these are lent.
fn put_running(after: Running, running: &mut [u64])
    ensures { running.new ≡ written_if (words.is_running running.old) (words.running_words after) running.old }
{
    let numbers = [after.account, after.billed];
    write(true, running, RUNNING, &numbers);
}

// One call, one chip-select frame, for an account: its number is the refusal's, 0 if the call is accepted. The words of
// the record and of the running operation become what then stands, and so do the tables.
pub fn oxterin_ledger_frame(
    device: &mut [u64],
    settings: &[u64],
    signals: &[u64],
    array: &mut [u8],
    register: &mut [u8],
    input: &[u8],
    output: &mut [u8],
    answer: &mut [u64],
    account: u64,
    running: &mut [u64],
    totals: &mut [u64; 256],
    most: &mut [u64; 256],
    numbers: &mut [u64; 256],
) -> u64
    ensures { words.left_for
        (left result device.new answer.new (lent array.new register.new output.new))
        running.new totals.new most.new numbers.new ≡
        words.faced (handed device.old settings.now signals.now input.now answer.old)
        (words.ticket account running.old totals.old most.old numbers.old)
        (lent array.old register.old output.old) }
{
    if is_record(device)
        & is_settings(settings)
        & is_signals(signals)
        & is_answer(answer.len())
        & is_lent(RUNNING, RUNNING, running.len())
    {
        let call = Call {
            device: device_of(device),
            settings: settings_of(settings),
            input,
            signals: signals_of(signals),
        };
        let mut lent = Lent {
            array,
            register,
            output,
        };
        let mut ledger = Ledger {
            totals,
            most,
            numbers,
            running: running_of(running),
        };
        let came = frame_for(&call, &mut lent, account, &mut ledger);
        put_running(ledger.running, running);
        return reply(call.device, came, device, answer);
    }
    UNREAD
}

// Closes a month: the three tables are handed out and then empty, and the operation that runs stays its account's,
// billed nothing so far.
pub fn oxterin_close(
    running: &mut [u64],
    totals: &mut [u64; 256],
    most: &mut [u64; 256],
    numbers: &mut [u64; 256],
    old_totals: &mut [u64; 256],
    old_most: &mut [u64; 256],
    old_numbers: &mut [u64; 256],
) -> u64
    ensures { words.closed_with result running.new
        (words.tables totals.new most.new numbers.new)
        (words.tables old_totals.new old_most.new old_numbers.new) ≡
        words.closing running.old
        (words.tables totals.old most.old numbers.old)
        (words.tables old_totals.old old_most.old old_numbers.old) }
{
    if is_lent(RUNNING, RUNNING, running.len()) {
        let mut ledger = Ledger {
            totals,
            most,
            numbers,
            running: running_of(running),
        };
        ledger.close(old_totals, old_most, old_numbers);
        put_running(ledger.running, running);
        return 0;
    }
    UNREAD
}

// The report on an account, three words: its total, the most ticks billed for one of its operations, and the number of
// its operations.
pub fn oxterin_report<'a>(
    totals: &'a [u64; 256],
    most: &'a [u64; 256],
    numbers: &'a [u64; 256],
    account: u64,
    line: &mut [u64],
) -> u64
    ensures value { result ≡ words.report_number (reported account totals.now most.now numbers.now) line.old }
    ensures line_after { line.new ≡
        words.report_words (reported account totals.now most.now numbers.now) line.old }
{
    if is_lent(REPORT, REPORT, line.len()) {
        return match ledger::report(totals, most, numbers, account) {
            Ok(reported) => {
                write(
                    true,
                    line,
                    REPORT,
                    &[reported.total, reported.most, reported.number],
                )
            }
            Err(refusal) => u64::from(refusal.number()),
        };
    }
    UNREAD
}
