// Judging a frame: from the record at its rise, the settings and the facts of a frame to the record afterwards, the
// outcome, the driven positions and what is to be done with the memories, whose contents it never sees.
#![tactic(auto)]

ghost use Rattle.std.specs.Prelude.{◌≡◌};
ghost use Rattle.judge.specs.Causes as causes;
ghost use Rattle.judge.specs.Judging as judging;
ghost use Rattle.judge.specs.Steps as steps;

use device::{Device, Mode};
use opcodes::{Command, Order, Region, Row, Source, Work};
use settings::{Kind, Settings};

// What is known of a frame without its data: the opcode, the second byte, the address, the number of bytes, the bits
// clocked, whether WP is high, and whether the part was busy at the frame's first bit.
#[derive(Clone, Copy)]
pub struct Facts {
    pub code: u8,
    pub second: u8,
    pub address: usize,
    pub bytes: usize,
    pub bits: u64,
    pub wp: bool,
    pub busy: bool,
}

// Why nothing came of a frame, or why it was aborted, in request R-5's order.
#[derive(Clone, Copy, Debug, PartialEq, Eq)]
pub enum Cause {
    TooFewBits = 1,
    Asleep = 2,
    Busy = 3,
    UnknownOpcode = 4,
    LatchClear = 5,
    ResetUnconfirmed = 6,
    OffBoundary = 7,
    Incomplete = 8,
    Protected = 9,
    Locked = 10,
    AlreadyProgrammed = 11,
    AlreadyAwake = 12,
}

impl Cause {
    // Its place in the list.
    pub fn number(self) -> u8
        ensures { result ≡ causes.cause_number self }
    {
        self as u8
    }
}

// The outcomes, by document 01's words; nothing and aborted with their cause.
#[derive(Clone, Copy, Debug, PartialEq, Eq)]
pub enum Outcome {
    Nothing(Cause),
    Read,
    Control,
    Aborted(Cause),
    Begun,
}

// What is to be done with the memories: nothing, drive bytes of a source, program a page, erase a region, program the
// register.
#[derive(Clone, Copy, Debug, PartialEq, Eq)]
pub enum Action {
    Still,
    Drive(Source),
    Program,
    Erase(Region),
    Otp,
}

// The record afterwards, the outcome, the first driven position, the number of driven positions, and what is to be
// done.
#[derive(Clone, Copy)]
pub struct Judged {
    pub device: Device,
    pub outcome: Outcome,
    pub first: usize,
    pub driven: usize,
    pub action: Action,
}

// An outcome with nothing driven and no memory to change.
fn quiet(outcome: Outcome, device: Device) -> Judged
    ensures { result ≡ judging.quiet outcome device }
{
    Judged {
        device,
        outcome,
        first: 0,
        driven: 0,
        action: Action::Still,
    }
}

// The latch drops, and the operation takes effect: the part is busy for so many ticks.
fn begun(device: Device, ticks: u64, action: Action) -> Judged
    ensures { result ≡ judging.begun device ticks action }
{
    Judged {
        device: device.dropped().working(ticks),
        outcome: Outcome::Begun,
        first: 0,
        driven: 0,
        action,
    }
}

// The control commands: what each makes of the record.
fn changed(order: Order, device: Device) -> Device
    ensures { result ≡ judging.changed order device }
{
    match order {
        Order::Enable => device.latched(),
        Order::Disable => device.dropped(),
        Order::DeepPowerDown => device.moved(Mode::Deep),
        Order::UltraDeepPowerDown => device.moved(Mode::UltraDeep),
        Order::Resume => device.moved(Mode::Awake),
        Order::Reset => device.reset(),
    }
}

// The duration that an erase of the region takes.
fn erase_kind(region: Region) -> Kind
    ensures { result ≡ judging.erase_kind region }
{
    match region {
        Region::Page => Kind::PageErase,
        Region::Small => Kind::SmallErase,
        Region::Large => Kind::LargeErase,
        Region::Chip => Kind::ChipErase,
    }
}

impl Facts {
    // Whether the bit count is divisible by 8.
    fn on_boundary(self) -> bool
        ensures { result ≡ causes.on_boundary self }
    {
        self.bits % 8 == 0
    }

    // The duration that a program takes, by the bytes sent.
    fn program_kind(self) -> Kind
        ensures { result ≡ judging.program_kind self }
    {
        if self.bytes == 5 {
            Kind::ByteProgram
        } else {
            Kind::LongerProgram
        }
    }
}

// What is judged: the row of the frame's opcode, the record at its rise, the settings, and what is known of the frame.
#[derive(Clone, Copy)]
struct Hearing {
    row: Row,
    device: Device,
    settings: Settings,
    facts: Facts,
}

impl Hearing {
    // Nothing comes of the frame, for this cause.
    fn nothing(self, cause: Cause) -> Judged
        ensures { result ≡ judging.nothing cause self.device }
    {
        quiet(Outcome::Nothing(cause), self.device)
    }

    // The latch drops, and there is no operation, for this cause.
    fn aborted(self, cause: Cause) -> Judged
        ensures { result ≡ judging.aborted cause self.device }
    {
        quiet(Outcome::Aborted(cause), self.device.dropped())
    }

    // How many positions a read drives: those from its first on, and no more than its row says.
    fn driven(self) -> usize
        ensures { result ≡ judging.driven self.row self.facts }
    {
        let first = self.row.first as usize;
        let most = self.row.most as usize;
        self.facts.bytes.saturating_sub(first).min(most)
    }

    // A read: the first driven position is 0 where none is driven.
    fn read(self, source: Source) -> Judged
        ensures { result ≡ judging.read self.row source self.device self.facts }
    {
        let driven = self.driven();
        Judged {
            device: self.device,
            outcome: Outcome::Read,
            first: if driven == 0 {
                0
            } else {
                self.row.first as usize
            },
            driven,
            action: Action::Drive(source),
        }
    }

    // A control command is carried out.
    fn ordered(self, order: Order) -> Judged
        ensures { result ≡ judging.ordered order self.device }
    {
        quiet(Outcome::Control, changed(order, self.device))
    }

    // A control command that needs a boundary.
    fn bounded(self, order: Order) -> Judged
        ensures { result ≡ steps.bounded order self.device self.facts }
    {
        if !self.facts.on_boundary() {
            return self.nothing(Cause::OffBoundary);
        }
        self.ordered(order)
    }

    // A reset, which has to be enabled, and confirmed by a second byte that was clocked whole.
    fn reset(self) -> Judged
        ensures { result ≡ steps.ordering Order.Reset self.device self.facts }
    {
        if !(self.device.rste && self.facts.second == 0xD0 && 16 <= self.facts.bits) {
            return self.nothing(Cause::ResetUnconfirmed);
        }
        self.bounded(Order::Reset)
    }

    // A control command; a resume finds the part awake.
    fn ordering(self, order: Order) -> Judged
        ensures { result ≡ steps.ordering order self.device self.facts }
    {
        match order {
            Order::Resume => self.nothing(Cause::AlreadyAwake),
            Order::Reset => self.reset(),
            _ => self.bounded(order),
        }
    }

    // What bars a command that needs the latch: protection, the OTP-used mark or the locked status.
    fn bar(self, work: Work) -> Option<Cause>
        ensures { result ≡ steps.bar work self.device self.facts }
    {
        match work {
            Work::Program | Work::Erase(_) => self.device.bp0.then_some(Cause::Protected),
            Work::Otp => self.device.used.then_some(Cause::AlreadyProgrammed),
            Work::WriteStatus => (self.device.bpl && !self.facts.wp).then_some(Cause::Locked),
            Work::WriteStatusTwo => None,
        }
    }

    // The commands that need the latch.
    fn carried(self, work: Work) -> Judged
        ensures { result ≡ judging.carried work self.device self.settings self.facts }
    {
        match work {
            Work::Program => begun(
                self.device,
                self.settings.duration(self.facts.program_kind()),
                Action::Program,
            ),
            Work::Erase(region) => begun(
                self.device,
                self.settings.duration(erase_kind(region)),
                Action::Erase(region),
            ),
            Work::Otp => begun(
                self.device.marked(),
                self.settings.duration(Kind::OtpProgram),
                Action::Otp,
            ),
            Work::WriteStatus => begun(
                self.device.written(self.facts.second),
                self.settings.duration(Kind::StatusWrite),
                Action::Still,
            ),
            Work::WriteStatusTwo => quiet(
                Outcome::Control,
                self.device.dropped().enabled(self.facts.second),
            ),
        }
    }

    // A command that needs the latch: with it, carried out or aborted.
    fn working(self, work: Work) -> Judged
        ensures { result ≡ steps.working work self.row self.device self.settings self.facts }
    {
        if !self.device.wel {
            return self.nothing(Cause::LatchClear);
        }
        if !self.facts.on_boundary() {
            return self.aborted(Cause::OffBoundary);
        }
        if self.facts.bytes < self.row.bytes as usize {
            return self.aborted(Cause::Incomplete);
        }
        match self.bar(work) {
            Some(cause) => self.aborted(cause),
            None => self.carried(work),
        }
    }

    // By opcode, an awake part that hears the frame.
    fn by_opcode(self) -> Judged
        ensures { result ≡ steps.by_opcode self.row.command self.row self.device self.settings self.facts }
    {
        match self.row.command {
            Command::Unlisted => self.nothing(Cause::UnknownOpcode),
            Command::Reads(source) => self.read(source),
            Command::Orders(order) => self.ordering(order),
            Command::Works(work) => self.working(work),
        }
    }

    // In deep power-down only the row that says so is heard, on a boundary: ABh.
    fn asleep(self) -> Judged
        ensures { result ≡ steps.asleep self.row self.device self.facts }
    {
        if self.row.asleep && self.facts.on_boundary() {
            return self.ordered(Order::Resume);
        }
        self.nothing(Cause::Asleep)
    }
}

// A frame goes by the first cause of the request's list that holds, and by its opcode if none does. The five steps of
// document 01 find it: each opcode knows some of the causes.
#[tactic(auto, using(crate::proofs::Steps::by_steps), unfolding(crate::specs::Steps::stepped))]
pub fn judge(device: Device, settings: Settings, facts: Facts) -> Judged
    ensures { result ≡ judging.judged device settings facts }
{
    let row = opcodes::row_of(facts.code);
    let hearing = Hearing {
        row,
        device,
        settings,
        facts,
    };
    match device.mode {
        Mode::UltraDeep => quiet(Outcome::Control, device.woken()),
        _ if facts.bits < 8 => hearing.nothing(Cause::TooFewBits),
        Mode::Deep => hearing.asleep(),
        Mode::Awake if facts.busy && !row.busy => hearing.nothing(Cause::Busy),
        Mode::Awake => hearing.by_opcode(),
    }
}
