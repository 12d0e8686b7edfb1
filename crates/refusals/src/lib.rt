// Every refusal of the project, and its number in the papers. It says what a refusal is called, not when it is given. A request that brings
// new ones adds them here.
#![tactic(auto)]

ghost use Rattle.std.specs.Prelude.{◌≡◌};
ghost use Rattle.refusals.specs.Refusals.{number_of};

// Why a call, a report or a text is refused, each with its number in the table.
#[derive(Clone, Copy, Debug, PartialEq, Eq)]
pub enum Refusal {
    // the array has none of the sizes
    ArrayLength = 1,
    // the security register does not have 128 bytes
    RegisterLength = 2,
    // the frame is too long
    InputLength = 3,
    // the bits clocked are not those of the input bytes
    BitCount = 4,
    // the output buffer is shorter than the frame
    OutputLength = 5,
    // no part could be in the state of the record
    Record = 6,
    // a duration is 0 or too long
    Duration = 7,
    // a byte position takes too many ticks
    Pace = 8,
    // there is no such account, or the ledger is full
    Account = 9,
    // a HEX record is malformed
    HexRecord = 12,
    // a HEX record's bytes do not add up to 0
    HexChecksum = 13,
    // a HEX record is of another type
    HexType = 14,
    // HEX data lies outside the array or its 64 KiB
    HexOutside = 15,
    // the HEX end record is missing, or text follows it
    HexEnd = 16,
    // the text does not fit into its room
    HexRoom = 17,
    // the array of a HEX text has none of the sizes
    HexLength = 18,
}

impl Refusal {
    // Its number in the table.
    pub fn number(self) -> u8
        ensures { result ≡ number_of self }
    {
        self as u8
    }
}
