// The reader of Intel HEX: text is laid into an array. A first walk over the records judges them all; only then a
// second one writes. Nothing is required of a caller; what is wrong is refused.
#![tactic(auto)]

ghost use Rattle.std.specs.Prelude.{true, false, cond, not, ◌&&◌, ◌||◌, Some, None, ◌≡◌, ◌+◌, ◌*◌, ◌<◌, ◌≤◌};
ghost use Rattle.std.specs.Prelude.{eqb, ltb, length};
ghost use Rattle.cells.specs.Each.{each};
ghost use Rattle.refusals.specs.Refusals.{number_in};
ghost use Rattle.ihex_layout.specs.Layout.{digit_of, byte_at, length_of, address_of, kind_of};
ghost use Rattle.ihex_layout.specs.Layout.{kind_named, kind_number, asked, sum_of};
ghost use Rattle.ihex_read.specs.Reader.{
  lines_in,
  first,
  is_end,
  place_of,
  pairs,
  is_whole,
  malformed,
  outside,
  fault_of,
  upper_behind,
  judged_in,
  laid,
  obeyed,
  carried,
  reading,
  told,
  reading_of,
  array_of,
};

use ihex_layout::Kind;
use memories::is_array;
use refusals::Refusal;

// Why a text is refused, and the place of the character at which the faulty record begins: for text after the end
// record the first character there, for a missing end record the end of the text.
#[derive(Clone, Copy, Debug, PartialEq, Eq)]
pub struct Fault {
    pub refusal: Refusal,
    pub place: usize,
}

// Whether a character is a digit, in either case.
#[tactic(auto, using(crate::proofs::Values::digit_test))]
fn is_digit(c: u8) -> bool
    ensures { result ≡ ltb (digit_of c) 256 }
{
    c.is_ascii_hexdigit()
}

// The number that a digit stands for: its low four bits, and nine more if it is a letter. What it is of other
// characters does not matter.
#[tactic(auto, using(crate::proofs::Values::digit_value))]
fn digit_of(c: u8) -> usize
    ensures value { digit_of c < 256 → result ≡ digit_of c }
    ensures upper_bound { result ≤ 42 }
{
    // without a branch: with a match reading takes 3.7 times as long, too long for the aim (docs/PERFORMANCE.md)
    usize::from(c % 16 + c / 64 * 9)
}

// Below, `rest` is the text from the first character of a line on.

// Whether the byte k of that line is a pair of digits.
#[tactic(auto, using(crate::proofs::Values::pair_test))]
fn is_pair(rest: &[u8], k: usize) -> bool
    requires { 2 * k + 2 < length rest.now }
    ensures { result ≡ ltb (byte_at rest.now k) 256 }
{
    // without a branch: with && reading takes a sixth longer (docs/PERFORMANCE.md)
    is_digit(rest[2 * k + 1]) & is_digit(rest[2 * k + 2])
}

// That byte, if it is a pair of digits.
fn byte_at(rest: &[u8], k: usize) -> usize
    requires { 2 * k + 2 < length rest.now }
    ensures value { byte_at rest.now k < 256 → result ≡ byte_at rest.now k }
    ensures upper_bound { result ≤ 714 }
{
    digit_of(rest[2 * k + 1]) * 16 + digit_of(rest[2 * k + 2])
}

// What the first n bytes of that line add up to; None unless all are pairs of digits.
fn tally(rest: &[u8], n: usize) -> Option<u32>
    requires { (2 * n < length rest.now) × (n < 512) }
    ensures { result ≡ cond (pairs rest.now n) (Some (sum_of rest.now n)) None }
{
    let mut whole = true;
    let mut total = 0;
    // without a branch: where it leaves at the first wrong pair, reading takes 1.4 times as long
    for k in 0..n {
        whole &= is_pair(rest, k);
        total += byte_at(rest, k) as u32;
    }
    whole.then_some(total)
}

// Whether a line can end here: the text does, or an ending stands here.
#[tactic(auto, using(crate::proofs::Lines::end_test))]
fn is_end(here: &[u8]) -> bool
    ensures { result ≡ is_end here.now }
{
    here.is_empty() || here.starts_with(b"\n") || here.starts_with(b"\r\n")
}

// What the bytes of the record on that line add up to; None unless it has the colon and the pairs that its length asks.
fn record_at(rest: &[u8]) -> Option<u32>
    ensures { result ≡
        cond (is_whole (first (lines_in rest.now)))
        (Some (sum_of (first (lines_in rest.now)) (asked (first (lines_in rest.now)))))
        None }
{
    if rest.len() < 11 || rest[0] != b':' || !is_pair(rest, 0) {
        return None;
    }
    let end = 2 * byte_at(rest, 0) + 11;
    if rest.len() < end || !is_end(&rest[end..]) {
        return None;
    }
    tally(rest, end / 2)
}

// A whole record: the text from its first character on.
#[derive(Clone, Copy)]
struct Record<'a> {
    rest: &'a [u8],
    ghost whole: { is_whole (first (lines_in rest.now)) ≡ true },
}

impl Record<'_> {
    // Its byte k.
    fn byte(&self, k: usize) -> u8
        requires { k < asked (first (lines_in self.now.rest.now)) }
        ensures { result ≡ byte_at (first (lines_in self.now.rest.now)) k }
    {
        byte_at(self.rest, k) as u8
    }

    // Its type, if it is one that is read.
    fn kind(&self) -> Option<Kind>
        ensures { result ≡ kind_named (kind_of (first (lines_in self.now.rest.now))) }
    {
        Kind::try_from(usize::from(self.byte(3))).ok()
    }

    // Whether it has that type.
    fn has_kind(&self, kind: Kind) -> bool
        ensures { result ≡ eqb (kind_of (first (lines_in self.now.rest.now))) (kind_number kind) }
    {
        self.kind() == Some(kind)
    }

    // Whether it has a length that its type may not have: the end record has no data, and type 04 two bytes.
    fn has_wrong_length(&self) -> bool
        ensures { result ≡ malformed (first (lines_in self.now.rest.now)) }
    {
        let length = self.byte(0);
        match self.kind() {
            Some(Kind::End) => length != 0,
            Some(Kind::Upper) => length != 2,
            _ => false,
        }
    }

    // The address that it gives.
    fn address(&self) -> u16
        ensures { result ≡ address_of (first (lines_in self.now.rest.now)) }
    {
        u16::from_be_bytes([self.byte(1), self.byte(2)])
    }

    // Whether it has data past its 64 KiB, or outside an array of that size.
    fn is_outside(&self, upper: u16, size: usize) -> bool
        ensures { result ≡ outside size upper (first (lines_in self.now.rest.now)) }
    {
        let length = usize::from(self.byte(0));
        let address = usize::from(self.address());
        self.has_kind(Kind::Data)
            && length != 0
            && (65536 < address + length || size < usize::from(upper) * 65536 + address + length)
    }

    // How far on the next line begins.
    #[tactic(auto, using(crate::proofs::Whole::whole_some))]
    fn next_line(&self) -> usize
        ensures { result ≡ place_of 1 self.now.rest.now }
    {
        let rest = self.rest;
        let end = 2 * usize::from(self.byte(0)) + 11;
        if end == rest.len() {
            return end;
        }
        if rest[end] == b'\n' { end + 1 } else { end + 2 }
    }

    // The upper part of the addresses behind it.
    fn upper_behind(&self, upper: u16) -> u16
        requires { malformed (first (lines_in self.now.rest.now)) ≡ false }
        ensures { result ≡ upper_behind upper (first (lines_in self.now.rest.now)) }
    {
        if self.has_kind(Kind::Upper) {
            u16::from_be_bytes([self.byte(4), self.byte(5)])
        } else {
            upper
        }
    }

    // Its data goes to the array from `start` on.
    fn lay(&self, array: &mut [u8], start: usize)
        requires { (start < 8589934592) × (0 < length_of (first (lines_in self.now.rest.now)) →
            start + length_of (first (lines_in self.now.rest.now)) ≤ length array.old) }
        ensures { array.new ≡ each (laid start (first (lines_in self.now.rest.now))) array.old }
    {
        let end = start + usize::from(self.byte(0));
        // by index: a record without data may begin behind the array's end, where no slice begins
        for i in start..end {
            array[i] = self.byte(i - start + 4);
        }
    }

    // With data it is laid into the array; others leave it alone.
    fn obey(&self, array: &mut [u8], upper: u16)
        requires { fault_of (length array.old) upper (first (lines_in self.now.rest.now)) ≡ 0 }
        ensures { array.new ≡ obeyed upper (first (lines_in self.now.rest.now)) array.old }
    {
        if self.has_kind(Kind::Data) {
            let start = usize::from(upper) * 65536 + usize::from(self.address());
            self.lay(array, start);
        }
    }
}

// Why that line is refused, if it is.
#[tactic(auto, using(crate::proofs::Whole::whole_some))]
fn fault_of(rest: &[u8], upper: u16, size: usize) -> Result<(), Refusal>
    ensures { number_in result ≡ fault_of size upper (first (lines_in rest.now)) }
{
    let total = record_at(rest).ok_or(Refusal::HexRecord)?;
    let record = Record { rest };
    if record.has_wrong_length() {
        return Err(Refusal::HexRecord);
    }
    if total % 256 != 0 {
        return Err(Refusal::HexChecksum);
    }
    if record.kind().is_none() {
        return Err(Refusal::HexType);
    }
    if record.is_outside(upper, size) {
        return Err(Refusal::HexOutside);
    }
    Ok(())
}

// What is said of a text whose end record ends at `at`.
fn end_at(text: &[u8], at: usize) -> Result<(), Fault>
    requires { at ≤ length text.now }
    ensures { told result ≡ cond (ltb at (length text.now)) (reading 16 at) (reading 0 0) }
{
    if at < text.len() {
        return Err(Fault {
            refusal: Refusal::HexEnd,
            place: at,
        });
    }
    Ok(())
}

// The first walk: the first faulty record decides.
fn judge(text: &[u8], size: usize) -> Result<(), Fault>
    ensures { told result ≡
        reading (judged_in text.now size).refusal (place_of (judged_in text.now size).line text.now) }
{
    let mut at = 0;
    let mut upper = 0;
    // a line's own length says where the next one begins, so no range counts it
    while at < text.len() {
        let rest = &text[at..];
        if let Err(refusal) = fault_of(rest, upper, size) {
            return Err(Fault { refusal, place: at });
        }
        let record = Record { rest };
        let next = at + record.next_line();
        if record.has_kind(Kind::End) {
            return end_at(text, next);
        }
        upper = record.upper_behind(upper);
        at = next;
    }
    Err(Fault {
        refusal: Refusal::HexEnd,
        place: at,
    })
}

// The second walk: the records of a text that is not refused.
fn carry_out(array: &mut [u8], text: &[u8])
    requires { (judged_in text.now (length array.old)).refusal ≡ 0 }
    ensures { array.new ≡ carried 0 (lines_in text.now) array.old }
{
    let mut rest = text;
    let mut upper = 0;
    // a line's own length says where the next one begins, so no range counts it
    while !rest.is_empty() {
        let record = Record { rest };
        if record.has_kind(Kind::End) {
            return;
        }
        record.obey(array, upper);
        upper = record.upper_behind(upper);
        rest = &rest[record.next_line()..];
    }
}

// Reads the text into the array: later records win, bytes not named stay; refused, all of them do.
pub fn read(text: &[u8], array: &mut [u8]) -> Result<(), Fault>
    ensures result_value { told result ≡ reading_of text.now (length array.old) }
    ensures array_after { array.new ≡ array_of text.now array.old }
{
    if !is_array(array.len()) {
        return Err(Fault {
            refusal: Refusal::HexLength,
            place: 0,
        });
    }
    judge(text, array.len())?;
    carry_out(array, text);
    Ok(())
}
