// The device record, handed on by value: each method hands back the record as it then stands. And the status bytes, which show it. It knows
// no opcode, no frame and no memory.
#![tactic(auto)]

pub mod status;

ghost use Rattle.std.specs.Prelude.{◌≡◌};
ghost use Rattle.device.specs.Device.{fresh, is_busy, unsound, passed, latched, dropped};
ghost use Rattle.device.specs.Device.{moved, woken, working, reset, marked, written, enabled};

use settings::LONGEST;

// Awake, in deep power-down or in ultra-deep power-down.
#[derive(Clone, Copy, Debug, PartialEq, Eq)]
pub enum Mode {
    Awake,
    Deep,
    UltraDeep,
}

// The bits BPL, BP0, WEL and RSTE, the OTP-used mark, the mode and the busy ticks left.
#[derive(Clone, Copy)]
pub struct Device {
    pub bpl: bool,
    pub bp0: bool,
    pub wel: bool,
    pub rste: bool,
    pub used: bool,
    pub mode: Mode,
    pub busy: u64,
}

impl Device {
    // A new record from the caller's three bits: awake and idle, the latch and RSTE clear.
    pub fn fresh(bpl: bool, bp0: bool, used: bool) -> Device
        ensures { result ≡ fresh bpl bp0 used }
    {
        Device {
            bpl,
            bp0,
            wel: false,
            rste: false,
            used,
            mode: Mode::Awake,
            busy: 0,
        }
    }

    // Whether ticks are left.
    pub fn is_busy(self) -> bool
        ensures { result ≡ is_busy self }
    {
        0 < self.busy
    }

    // Whether no part could be in this state, which is refusal 6.
    pub fn is_unsound(self) -> bool
        ensures { result ≡ unsound self }
    {
        LONGEST < self.busy || self.is_busy() && self.mode != Mode::Awake
    }

    // Time passes: so many ticks fewer are left, or none.
    pub fn passed(mut self, ticks: u64) -> Device
        ensures { result ≡ passed self ticks }
    {
        self.busy = self.busy.saturating_sub(ticks);
        self
    }

    // The latch is set.
    pub fn latched(mut self) -> Device
        ensures { result ≡ latched self }
    {
        self.wel = true;
        self
    }

    // The latch is dropped.
    pub fn dropped(mut self) -> Device
        ensures { result ≡ dropped self }
    {
        self.wel = false;
        self
    }

    // The mode changes.
    pub fn moved(mut self, mode: Mode) -> Device
        ensures { result ≡ moved self mode }
    {
        self.mode = mode;
        self
    }

    // Woken from ultra-deep: the latch and RSTE are lost.
    pub fn woken(mut self) -> Device
        ensures { result ≡ woken self }
    {
        self.rste = false;
        self.dropped().moved(Mode::Awake)
    }

    // Busy for so many ticks.
    pub fn working(mut self, ticks: u64) -> Device
        ensures { result ≡ working self ticks }
    {
        self.busy = ticks;
        self
    }

    // Reset: idle, and the latch is dropped.
    pub fn reset(self) -> Device
        ensures { result ≡ reset self }
    {
        self.dropped().working(0)
    }

    // The OTP-used mark is set.
    pub fn marked(mut self) -> Device
        ensures { result ≡ marked self }
    {
        self.used = true;
        self
    }

    // Status byte 1 is written: bit 7 goes to BPL, and bit 2 to BP0 unless BPL was 1.
    pub fn written(mut self, byte: u8) -> Device
        ensures { result ≡ written self byte }
    {
        if !self.bpl {
            self.bp0 = byte / 4 % 2 == 1;
        }
        self.bpl = byte / 128 % 2 == 1;
        self
    }

    // Status byte 2 is written: bit 4 goes to RSTE.
    pub fn enabled(mut self, byte: u8) -> Device
        ensures { result ≡ enabled self byte }
    {
        self.rste = byte / 16 % 2 == 1;
        self
    }
}
