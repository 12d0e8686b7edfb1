// Intel HEX for callers that have only numbers and memories: one word is lent for the answer. Any other number of words is answered with
// 255, and then nothing changes.
#![tactic(auto)]

ghost use Rattle.std.specs.Prelude.{◌≡◌};
ghost use Rattle.face_hex.specs.Words.{spoken, text_out, text_in};

use face_words::UNREAD;

// An array as Intel HEX text: the number of the refusal, 0 if the text was written. The word becomes the number of characters.
pub fn oxterin_hex_write(array: &[u8], text: &mut [u8], characters: &mut [u64]) -> u64
    ensures { spoken result characters.new text.new ≡
        text_out array.now text.old characters.old }
{
    if characters.len() == 1 {
        return match ihex_write::write(array, text) {
            Ok(written) => {
                characters[0] = written as u64;
                0
            }
            Err(refusal) => {
                characters[0] = 0;
                u64::from(refusal.number())
            }
        };
    }
    UNREAD
}

// Intel HEX text into an array: the number of the refusal, 0 if the text was read. The word becomes the place where the faulty record
// begins, or the text after the end record, or where an end record is missing.
pub fn oxterin_hex_read(text: &[u8], array: &mut [u8], place: &mut [u64]) -> u64
    ensures { spoken result place.new array.new ≡ text_in text.now array.old place.old }
{
    if place.len() == 1 {
        return match ihex_read::read(text, array) {
            Ok(()) => {
                place[0] = 0;
                0
            }
            Err(fault) => {
                place[0] = fault.place as u64;
                u64::from(fault.refusal.number())
            }
        };
    }
    UNREAD
}
