// The writer of Intel HEX: an array becomes text by the published layout. It knows bytes, characters and the sizes of
// an array, and nothing of flash. Nothing is required of a caller; what is wrong is refused.
#![tactic(auto)]

ghost use Rattle.std.specs.Prelude.{[], ◌∷◌, ◌++◌, ◌≡◌, ◌+◌, ◌*◌, ◌%◌, ◌<◌, ◌≤◌, length, take, drop};
ghost use Rattle.std.proofs.lemmas.List.Edits.{sets};
ghost use Rattle.ihex_layout.specs.Layout as layout;
ghost use Rattle.ihex_layout.specs.Layout.{line_feed, digits, sum, kind_number, record_line};
ghost use Rattle.ihex_write.specs.Writer.{upper_line, lines_at, joined, text_of, characters_for, told, written_of};
ghost use Rattle.ihex_write.specs.Writer.{output_of};

use ihex_layout::Kind;
use memories::is_array;
use refusals::Refusal;

// A digit, in upper case: the library's `char::from_digit` has small letters.
fn digit(n: u8) -> u8
    requires { n < 16 }
    ensures { result ≡ layout.digit n }
{
    if n < 10 { b'0' + n } else { b'A' + (n - 10) }
}

// Below, a piece goes into the output from `at` on: with slices each call would cut one, as
// `put_byte(&mut output[at + 3..], high)`, and count its place all the same, which is no plainer.

// The pair of digits for a byte.
#[tactic(auto, unfolding(ihex_layout::specs::Layout::digits))]
fn put_byte(output: &mut [u8], at: usize, byte: u8)
    requires { at + 2 ≤ length output.old }
    ensures { output.new ≡ sets output.old at (digits (byte ∷ [])) }
{
    output[at] = digit(byte / 16);
    output[at + 1] = digit(byte % 16);
}

// The pairs of digits for the bytes; the answer is what these bytes add up to.
fn put_bytes(output: &mut [u8], at: usize, bytes: &[u8]) -> usize
    requires { (at + 2 * length bytes.now ≤ length output.old) × (length bytes.now < 256) }
    ensures value { result ≡ sum bytes.now }
    ensures upper_bound { result ≤ 255 * length bytes.now }
    ensures output_after { output.new ≡ sets output.old at (digits bytes.now) }
{
    let mut total = 0;
    for (i, &byte) in bytes.iter().enumerate() {
        put_byte(output, at + 2 * i, byte);
        total += usize::from(byte);
    }
    total
}

// A record and its LF.
fn put_record(output: &mut [u8], at: usize, address: u16, kind: Kind, content: &[u8])
    requires { (at + 2 * length content.now + 12 ≤ length output.old) × (length content.now < 256) }
    ensures { output.new ≡ sets output.old at (record_line address (kind_number kind) content.now ++ line_feed ∷ []) }
{
    let count = content.len();
    let [high, low] = address.to_be_bytes();
    let number = kind.number();
    output[at] = b':';
    put_byte(output, at + 1, count as u8);
    put_byte(output, at + 3, high);
    put_byte(output, at + 5, low);
    put_byte(output, at + 7, number);
    let total = put_bytes(output, at + 9, content);
    let all = count + (usize::from(high) + (usize::from(low) + (usize::from(number) + total)));
    put_byte(output, at + 9 + 2 * count, ((256 - all % 256) % 256) as u8);
    output[at + 11 + 2 * count] = b'\n';
}

// The record of type 04 with the upper part of the addresses that follow.
fn put_upper(output: &mut [u8], at: usize, upper: u16)
    requires { at + 16 ≤ length output.old }
    ensures { output.new ≡ sets output.old at (upper_line upper ++ line_feed ∷ []) }
{
    put_record(output, at, 0, Kind::Upper, &upper.to_be_bytes());
}

// The records for 16 bytes of the array from `from` on: where 64 KiB begin, one of type 04 comes first. The answer is
// where the text goes on.
fn put_row(output: &mut [u8], at: usize, array: &[u8], from: usize) -> usize
    requires { (at + length (joined (lines_at array.now from)) ≤ length output.old) × (from + 16 ≤ length array.now) ×
        (length array.now ≤ 4294967296) }
    ensures value { result ≡ at + length (joined (lines_at array.now from)) }
    ensures output_after { output.new ≡ sets output.old at (joined (lines_at array.now from)) }
{
    let bytes = &array[from..from + 16];
    let address = (from % 65536) as u16;
    if from % 65536 == 0 {
        put_upper(output, at, (from / 65536) as u16);
        put_record(output, at + 16, address, Kind::Data, bytes);
        return at + 60;
    }
    put_record(output, at, address, Kind::Data, bytes);
    at + 44
}

// The text of an array.
fn put_text(output: &mut [u8], array: &[u8])
    requires { (length (text_of array.now) ≤ length output.old) × (length array.now % 65536 ≡ 0) ×
        (length array.now ≤ 4294967296) }
    ensures { output.new ≡ sets output.old 0 (text_of array.now) }
{
    let mut at = 0;
    for from in (0..array.len()).step_by(16) {
        at = put_row(output, at, array, from);
    }
    put_record(output, at, 0, Kind::End, &[]);
}

// How many characters the text of an array of that size has.
fn characters_for(size: usize) -> usize
    requires { size ≤ 4294967296 }
    ensures { result ≡ characters_for size }
{
    size / 16 * 44 + size / 65536 * 16 + 12
}

// Writes the text of the array. What lies behind the text in the output stays; refused, all of it does.
pub fn write(array: &[u8], output: &mut [u8]) -> Result<usize, Refusal>
    ensures result_value { told result ≡ written_of array.now (length output.old) }
    ensures output_after { output.new ≡ output_of array.now output.old }
{
    if !is_array(array.len()) {
        return Err(Refusal::HexLength);
    }
    let characters = characters_for(array.len());
    if output.len() < characters {
        return Err(Refusal::HexRoom);
    }
    put_text(output, array);
    Ok(characters)
}
