// The settings record: eight durations in ticks, one for each kind of operation.
#![tactic(auto)]

ghost use Rattle.std.specs.Prelude.{◌≡◌, ◌<◌};
ghost use Rattle.settings.specs.Settings.{place_of, duration_of, any_unfair, typical};

// The most ticks that an operation may take: a minute.
pub const LONGEST: u64 = 60000000;

// The kinds of operation that take time.
#[derive(Clone, Copy, Debug, PartialEq, Eq)]
pub enum Kind {
    ByteProgram,
    LongerProgram,
    PageErase,
    SmallErase,
    LargeErase,
    ChipErase,
    OtpProgram,
    StatusWrite,
}

impl Kind {
    // Its place among the durations.
    pub(crate) fn place(self) -> usize
        ensures { (result ≡ place_of self) × (result < 8) }
    {
        self as usize
    }
}

#[derive(Clone, Copy)]
pub struct Settings {
    pub ticks: [u64; 8],
}

impl Settings {
    // The data sheet's typical times, a tick being a microsecond.
    pub fn typical() -> Settings
        ensures { result ≡ typical }
    {
        Settings {
            ticks: [12, 2000, 7000, 50000, 400000, 1600000, 400, 20000],
        }
    }

    // How long an operation of that kind takes.
    pub fn duration(self, kind: Kind) -> u64
        ensures { result ≡ duration_of self kind }
    {
        self.ticks[kind.place()]
    }

    // Whether a duration is 0 or too long, which is refusal 7. Each call asks; so it is written into its callers.
    #[inline(always)]
    pub fn is_unfair(self) -> bool
        ensures { result ≡ any_unfair self.ticks }
    {
        self.ticks.iter().any(|&t| t == 0 || LONGEST < t)
    }
}
