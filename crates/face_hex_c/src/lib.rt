// The functions of `face_hex` as C and Rust link them, each under its own name: it hands its arguments on to the
// library, and promises what the library's function does, in the same clauses.
#![tactic(auto)]

ghost use Rattle.std.specs.Prelude.{◌≡◌};
ghost use Rattle.face_hex.specs.Words.{spoken, text_out, text_in};

// An array as Intel HEX text: the number of the refusal, 0 if the text was written. The word becomes the number of
// characters.
#[unsafe(no_mangle)]
pub extern "C" fn oxterin_hex_write(array: &[u8], text: &mut [u8], characters: &mut [u64]) -> u64
    ensures { spoken result characters.new text.new ≡
        text_out array.now text.old characters.old }
{
    face_hex::oxterin_hex_write(array, text, characters)
}

// Intel HEX text into an array: the number of the refusal, 0 if the text was read. The word becomes the place where
// the faulty record begins, or the text after the end record, or where an end record is missing.
#[unsafe(no_mangle)]
pub extern "C" fn oxterin_hex_read(text: &[u8], array: &mut [u8], place: &mut [u64]) -> u64
    ensures { spoken result place.new array.new ≡ text_in text.now array.old place.old }
{
    face_hex::oxterin_hex_read(text, array, place)
}
