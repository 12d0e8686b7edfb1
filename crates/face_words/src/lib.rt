// The words in which record, settings, signals and answer travel to callers that have only numbers and slices. Above, every count of words
// is one of the constants here.
#![tactic(auto)]

ghost use Rattle.std.specs.Prelude.{◌&&◌, [], ◌∷◌, ◌≡◌, ◌≤◌, length, get_or};
ghost use Rattle.part.specs.Words as part;
ghost use Rattle.face_words.specs.Words.{is_lent, answer_lent, mode_of, memory_of};
ghost use Rattle.face_words.specs.Words.{packed, is_record, device_of, is_settings, settings_of, is_signals};
ghost use Rattle.face_words.specs.Words.{signals_of, outcome_number, cause_place, number_if, written_if};
ghost use Rattle.judge.specs.Causes.{number_in, words_in};

use calls::Signals;
use device::{Device, Mode};
use judge::{Cause, Outcome};
use memories::Memory;
use settings::Settings;
use std::array;

// The word at a place, or 0 if there are fewer.
pub fn word(words: &[u64], place: usize) -> u64
    ensures { result ≡ get_or words.now place 0 }
{
    words.get(place).copied().unwrap_or(0)
}

// Whether a list may be lent with so many words: those of the oldest caller, or more, up to all. Without a branch: where
// `oldest` and `all` are the same, the compiler then knows how many words are copied, and makes no call of it.
pub fn is_lent(oldest: usize, all: usize, long: usize) -> bool
    ensures { result ≡ is_lent oldest all long }
{
    (oldest <= long) & (long <= all)
}

// The number that says that words stand for nothing; the C interface takes numbers.
pub const UNREAD: u64 = 255;

// How many words the record, the settings, the signals and the answer have, and how many signals and words of an answer
// the oldest caller lends.
pub const RECORD: usize = 7;

pub const SETTINGS: usize = 8;

pub const SIGNALS: usize = 4;

pub const FIRST_SIGNALS: usize = 3;

pub const ANSWER: usize = 4;

pub const FIRST_ANSWER: usize = 3;

// The new words take the place of the old ones, as far as these are lent, if what they come from is right and enough are
// lent. The flag is there because the clauses of `write` say what is done where nothing is right, and the number because
// the C interface lends words and takes numbers back.
pub fn write(right: bool, words: &mut [u64], oldest: usize, new: &[u64]) -> u64
    ensures value { result ≡ number_if (right && is_lent oldest (length new.now) (length words.old)) }
    ensures words_after { words.new ≡
        written_if (right && is_lent oldest (length new.now) (length words.old)) new.now words.old }
{
    let lent = words.len();
    if right & is_lent(oldest, new.len(), lent) {
        words.copy_from_slice(&new[..lent]);
        return 0;
    }
    UNREAD
}

// The mode of any word, for so the definition `mode_of` has it: `is_record` refuses the words that are no mode's.
fn mode_of(word: u64) -> Mode
    ensures { result ≡ mode_of word }
{
    match word {
        0 => Mode::Awake,
        1 => Mode::Deep,
        _ => Mode::UltraDeep,
    }
}

// The memory of any word, for so the definition `memory_of` has it: callers refuse the words that are no memory's.
pub fn memory_of(word: u64) -> Memory
    ensures { result ≡ memory_of word }
{
    match word {
        0 => Memory::Array,
        _ => Memory::Register,
    }
}

// The record as seven words.
pub fn pack(device: Device) -> [u64; RECORD]
    ensures { result ≡ packed device }
{
    [
        u64::from(device.bpl),
        u64::from(device.bp0),
        u64::from(device.wel),
        u64::from(device.rste),
        u64::from(device.used),
        device.mode as u64,
        device.busy,
    ]
}

// Whether these words are a record's.
#[tactic(auto, unfolding(crate::specs::Words::is_record))]
pub fn is_record(words: &[u64]) -> bool
    ensures { result ≡ is_record words.now }
{
    if !is_lent(RECORD, RECORD, words.len()) {
        return false;
    }
    words[..5].iter().all(|&flag| flag < 2) && words[5] < 3
}

#[tactic(auto, unfolding(crate::specs::Words::device_of))]
pub fn device_of(words: &[u64]) -> Device
    ensures { result ≡ device_of words.now }
{
    Device {
        bpl: word(words, 0) == 1,
        bp0: word(words, 1) == 1,
        wel: word(words, 2) == 1,
        rste: word(words, 3) == 1,
        used: word(words, 4) == 1,
        mode: mode_of(word(words, 5)),
        busy: word(words, 6),
    }
}

// Whether these words are a settings record's.
pub fn is_settings(words: &[u64]) -> bool
    ensures { result ≡ is_settings words.now }
{
    is_lent(SETTINGS, SETTINGS, words.len())
}

#[tactic(auto, unfolding(crate::specs::Words::settings_of))]
pub fn settings_of(words: &[u64]) -> Settings
    ensures { result ≡ settings_of words.now }
{
    Settings {
        ticks: array::from_fn(|place| word(words, place)),
    }
}

// Whether these words are a frame's signals; the oldest caller knows of no ticks per byte position.
pub fn is_signals(words: &[u64]) -> bool
    ensures { result ≡ is_signals words.now }
{
    is_lent(FIRST_SIGNALS, SIGNALS, words.len()) && word(words, 1) < 2
}

pub fn signals_of(words: &[u64]) -> Signals
    ensures { result ≡ signals_of words.now }
{
    Signals {
        bits: word(words, 0),
        wp: word(words, 1) == 1,
        elapsed: word(words, 2),
        pace: word(words, 3),
    }
}

// Whether so many words may be lent for an answer; the oldest caller knows of no cause.
pub fn is_answer(long: usize) -> bool
    ensures { result ≡ answer_lent long }
{
    is_lent(FIRST_ANSWER, ANSWER, long)
}

// The words of an answer, as far as they are lent. The lengths are apart because that is faster: the compiler then knows
// how many words each copy has.
pub fn tell(answer: &mut [u64], outcome: u64, first: u64, driven: u64, cause: u64)
    ensures { answer.new ≡
        written_if (answer_lent (length answer.old)) (outcome ∷ first ∷ driven ∷ cause ∷ [])
        answer.old }
{
    if answer.len() == ANSWER {
        write(true, answer, ANSWER, &[outcome, first, driven, cause]);
    } else {
        write(true, answer, FIRST_ANSWER, &[outcome, first, driven]);
    }
}

// The outcome's place among the outcomes, as the C header numbers them: what carries a cause is no plain number.
pub fn outcome_number(outcome: Outcome) -> u64
    ensures { result ≡ outcome_number (part.word_of outcome) }
{
    match outcome {
        Outcome::Nothing(_) => 0,
        Outcome::Read => 1,
        Outcome::Control => 2,
        Outcome::Aborted(_) => 3,
        Outcome::Begun => 4,
    }
}

// The cause that an outcome carries, if it carries one.
fn cause_in(outcome: Outcome) -> Option<Cause>
    ensures { result ≡ part.cause_in outcome }
{
    match outcome {
        Outcome::Nothing(cause) | Outcome::Aborted(cause) => Some(cause),
        Outcome::Read | Outcome::Control | Outcome::Begun => None,
    }
}

// Its place among the causes; 0 for none.
pub fn cause_number(outcome: Outcome) -> u64
    ensures value { result ≡ cause_place (words_in (part.cause_in outcome)) }
    ensures number { result ≡ number_in (part.cause_in outcome) }
{
    match cause_in(outcome) {
        Some(cause) => u64::from(cause.number()),
        None => 0,
    }
}
