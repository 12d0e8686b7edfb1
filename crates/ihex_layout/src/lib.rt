// Intel HEX as it is published: the layout, for the writer and the reader. In code it has the types of records alone.

#![tactic(auto)]

ghost use Rattle.std.specs.Prelude.{◌≡◌};
ghost use Rattle.ihex_layout.specs.Layout.{Decodes, kind_number};

// The types of records that are written and read, each with its number in a record.
#[derive(Clone, Copy, Debug, PartialEq, Eq)]
pub enum Kind {
    // bytes for the array
    Data = 0,
    // the end of the text
    End = 1,
    // the upper part of the addresses that follow
    Upper = 4,
}

impl Kind {
    // Its number in a record.
    pub fn number(self) -> u8
        ensures { result ≡ kind_number self }
    {
        self as u8
    }
}

// A number that no type has.
#[derive(Clone, Copy, Debug, PartialEq, Eq)]
pub struct UnknownKind;

// The type with a number.
impl TryFrom<usize> for Kind {
    type Error = UnknownKind;

    ghost try_from_gives = { Decodes };

    fn try_from(number: usize) -> Result<Self, UnknownKind> {
        match number {
            0 => Ok(Kind::Data),
            1 => Ok(Kind::End),
            4 => Ok(Kind::Upper),
            _ => Err(UnknownKind),
        }
    }
}
