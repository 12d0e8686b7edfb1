// The opcodes of the AT25XE011: a row of fixed facts for each listed one, kept as a constant table, and looking one up.
#![tactic(auto)]

ghost use Rattle.std.specs.Prelude.{◌≡◌};
ghost use Rattle.opcodes.specs.Rows.{row_of};

// Where a read takes the bytes that it drives: the array, the security register, the status bytes, the device's
// identity, or its legacy identity.
#[derive(Clone, Copy, Debug, PartialEq, Eq)]
pub enum Source {
    Array,
    Register,
    Status,
    Identity,
    Legacy,
}

// What a control command is to do.
#[derive(Clone, Copy, Debug, PartialEq, Eq)]
pub enum Order {
    Enable,
    Disable,
    DeepPowerDown,
    UltraDeepPowerDown,
    Resume,
    Reset,
}

// What an erase covers: a page of 256 bytes, a small block of 4 KiB, a large block of 32 KiB, or the whole array.
#[derive(Clone, Copy, Debug, PartialEq, Eq)]
pub enum Region {
    Page,
    Small,
    Large,
    Chip,
}

// What a command that needs the latch is to change.
#[derive(Clone, Copy, Debug, PartialEq, Eq)]
pub enum Work {
    Program,
    Erase(Region),
    Otp,
    WriteStatus,
    WriteStatusTwo,
}

// What an opcode does.
#[derive(Clone, Copy, Debug, PartialEq, Eq)]
pub enum Command {
    // No Option of a row: each field of such a row is read as any other row's, so each reader would have to ask twice.
    Unlisted,
    Reads(Source),
    Orders(Order),
    Works(Work),
}

// The fixed facts of an opcode: the fewest bytes that it needs, the first position that a read drives and the most that
// it drives, whether it needs a byte boundary, whether it needs the latch, whether a busy part answers it, whether a
// part in deep power-down does, and what it does.
#[derive(Clone, Copy)]
pub struct Row {
    pub code: u8,
    pub bytes: u8,
    pub first: u8,
    pub most: u16,
    pub boundary: bool,
    pub latch: bool,
    pub busy: bool,
    pub asleep: bool,
    pub command: Command,
}

// As many positions as the frame has: none that is accepted has more. It is a number because the definition `rows` has
// one there, of which judging takes the lesser.
const ENDLESS: u16 = 0xFFFF;

// Writes the rows of a table out, from their fields in the order of `Row`.
macro_rules! rows {
    ($($code:literal $bytes:literal $first:literal $most:tt
        $boundary:literal $latch:literal $busy:literal $asleep:literal $command:expr,)*) => {
        [$(Row {
            code: $code,
            bytes: $bytes,
            first: $first,
            most: $most,
            boundary: $boundary,
            latch: $latch,
            busy: $busy,
            asleep: $asleep,
            command: $command,
        },)*]
    };
}

// The table of opcodes.
const ROWS: [Row; 23] = rows! {
    // code bytes first most boundary latch busy asleep command
    0x03 1 4 ENDLESS false false false false Command::Reads(Source::Array),
    0x0B 1 5 ENDLESS false false false false Command::Reads(Source::Array),
    0x77 1 6 ENDLESS false false false false Command::Reads(Source::Register),
    0x05 1 1 ENDLESS false false true false Command::Reads(Source::Status),
    0x9F 1 1 4 false false false false Command::Reads(Source::Identity),
    0x15 1 1 2 false false false false Command::Reads(Source::Legacy),
    0x06 1 0 0 true false false false Command::Orders(Order::Enable),
    0x04 1 0 0 true false false false Command::Orders(Order::Disable),
    0xB9 1 0 0 true false false false Command::Orders(Order::DeepPowerDown),
    0x79 1 0 0 true false false false Command::Orders(Order::UltraDeepPowerDown),
    0xAB 1 0 0 false false false true Command::Orders(Order::Resume),
    0xF0 2 0 0 true false true false Command::Orders(Order::Reset),
    0x02 5 0 0 true true false false Command::Works(Work::Program),
    0x81 4 0 0 true true false false Command::Works(Work::Erase(Region::Page)),
    0x20 4 0 0 true true false false Command::Works(Work::Erase(Region::Small)),
    0x52 4 0 0 true true false false Command::Works(Work::Erase(Region::Large)),
    0xD8 4 0 0 true true false false Command::Works(Work::Erase(Region::Large)),
    0x60 1 0 0 true true false false Command::Works(Work::Erase(Region::Chip)),
    0xC7 1 0 0 true true false false Command::Works(Work::Erase(Region::Chip)),
    0x62 1 0 0 true true false false Command::Works(Work::Erase(Region::Chip)),
    0x9B 5 0 0 true true false false Command::Works(Work::Otp),
    0x01 2 0 0 true true false false Command::Works(Work::WriteStatus),
    0x31 2 0 0 true true false false Command::Works(Work::WriteStatusTwo),
};

// The row of an opcode that is not listed, but for its code.
const UNLISTED: Row = Row {
    code: 0,
    bytes: 1,
    first: 0,
    most: 0,
    boundary: false,
    latch: false,
    busy: false,
    asleep: false,
    command: Command::Unlisted,
};

// The row of an opcode; of one that is not listed, a row that says so. The rows are looked at where they lie: so judging
// reads the fields alone that it asks for.
pub fn row_of(code: u8) -> Row
    ensures { result ≡ row_of code }
{
    let row = ROWS
        .iter()
        .find(|row| row.code == code)
        .unwrap_or(&UNLISTED);
    Row { code, ..*row }
}
