// The tables of the ledger: what each account was billed, and what is booked of one call. It knows the answer of a call
// and its ticks, and nothing of frames.
#![tactic(auto)]

ghost use Rattle.std.specs.Prelude.{false, not, ◌||◌, ◌≡◌, suc, ◌+◌, ◌*◌, ◌<◌, ◌≤◌, min, replicate};
ghost use Rattle.refusals.specs.Refusals.{number_in};
ghost use Rattle.part.specs.Frame.{reply_of};
ghost use Rattle.ledger.specs.Lent.{ledger_of, SameTables};
ghost use Rattle.ledger.specs.Ledger as spec;

use calls::{Call, Signals, bytes_for};
use judge::Outcome;
use part::Answer;
use refusals::Refusal;

// Accounts have lower numbers.
pub const ACCOUNTS: u64 = 256;

// No account's total or number may be above.
pub const LIMIT: u64 = 9000000000000000000;

// Whose operation is running, and what it was billed so far. An account over 255 is nobody: a caller in C lends the two
// words, and any number may stand there.
#[derive(Clone, Copy)]
pub struct Running {
    pub account: u64,
    pub billed: u64,
}

// The report on an account: its total, the most ticks billed for one of its operations, and the number of these.
#[derive(Clone, Copy)]
pub struct Reported {
    pub total: u64,
    pub most: u64,
    pub number: u64,
}

// For each account its total, the most ticks billed for one of its operations, and the number of its operations; and
// whose operation is running. The tables are three because a caller in C lends three.
#[derive(Drop)]
pub struct Ledger<'a> {
    pub totals: &'a mut [u64; 256],
    pub most: &'a mut [u64; 256],
    pub numbers: &'a mut [u64; 256],
    pub running: Running,
}

// Nobody's operation is running.
pub fn nobody() -> Running
    ensures { result ≡ spec.nobody }
{
    Running {
        account: ACCOUNTS,
        billed: 0,
    }
}

// All bits that the words of two tables have among them, each table's gathered in a word of its own: neither waits for
// the other.
fn gathered<'a>(table: &'a [u64; 256], also: &'a [u64; 256]) -> u64
    ensures { result ≤ spec.limit → (spec.any_above table.now ≡ false) × (spec.any_above also.now ≡ false) }
{
    let mut one = 0;
    let mut two = 0;
    for (word, other) in table.iter().zip(also) {
        one |= word;
        two |= other;
    }
    one | two
}

// Whether any word of a table is above the limit.
fn has_above(table: &[u64; 256]) -> bool
    ensures { result ≡ spec.any_above table.now }
{
    table.iter().any(|&word| LIMIT < word)
}

// Whether any word of two tables is. Where all their bits together are not above the limit, none is.
fn any_above<'a>(table: &'a [u64; 256], also: &'a [u64; 256]) -> bool
    ensures { result ≡ spec.any_above table.now || spec.any_above also.now }
{
    if gathered(table, also) <= LIMIT {
        return false;
    }
    has_above(table) || has_above(also)
}

// Whether the ledger is shut to a call of this account. Of the tables it reads the two that refusal 9 asks for.
pub fn is_shut<'a>(account: u64, totals: &'a [u64; 256], numbers: &'a [u64; 256]) -> bool
    ensures { result ≡ not (spec.is_account account) || (spec.any_above totals.now || spec.any_above numbers.now) }
{
    if ACCOUNTS <= account {
        return true;
    }
    any_above(totals, numbers)
}

// What comes off the busy ticks in a call: not more than was left before.
fn came_off(busy: u64, signals: Signals) -> u64
    ensures { result ≡ spec.came_off busy signals }
{
    let positions = bytes_for(signals.bits);
    let ticks = positions.saturating_mul(signals.pace);
    signals.elapsed.saturating_add(ticks).min(busy)
}

impl Ledger<'_> {
    // Ticks are billed to the account of the running operation.
    fn charge(&mut self, ticks: u64)
        requires { (spec.any_above self.old.totals.now ≡ false) × (ticks ≤ 60000000) }
        ensures value { ledger_of self.new ≡ spec.charged ticks (ledger_of self.old) }
        ensures same_tables { SameTables self.old self.new }
    {
        if self.running.account < ACCOUNTS {
            let place = self.running.account as usize;
            let billed = self.running.billed.saturating_add(ticks);
            self.totals[place] += ticks;
            self.most[place] = self.most[place].max(billed);
            self.running.billed = billed;
        }
    }

    // The number of an account's operations rises by one, and the operation that it has begun is billed nothing yet.
    fn start(&mut self, account: u64)
        requires { (account < 256) × (spec.any_above self.old.numbers.now ≡ false) }
        ensures value { ledger_of self.new ≡ spec.started account (ledger_of self.old) }
        ensures same_tables { SameTables self.old self.new }
    {
        self.numbers[account as usize] += 1;
        self.running = Running { account, billed: 0 };
    }

    // What a call did is booked: nothing, of a refused one. What came off is billed, and then the operation that is
    // running may be another.
    pub fn book(&mut self, call: &Call<'_>, came: &Result<Answer, Refusal>, account: u64)
        requires account_bound { (account < 256) ×
            ((spec.any_above self.old.totals.now ≡ false) × (spec.any_above self.old.numbers.now ≡ false)) }
        requires busy_bound { number_in came.now ≡ 0 → call.now.device.busy ≤ 60000000 }
        ensures value { ledger_of self.new ≡
            spec.booked call.now.device.busy call.now.signals (reply_of call.now.device came.now) account
            (ledger_of self.old) }
        ensures same_tables { SameTables self.old self.new }
    {
        if let Ok(answer) = came {
            let ticks = came_off(call.device.busy, call.signals);
            self.charge(ticks);
            if answer.outcome == Outcome::Begun {
                self.start(account);
            } else if answer.device.busy == 0 {
                self.running = nobody();
            }
        }
    }

    // Closes a month: the tables are handed out and then empty. The operation that runs stays its account's, and its
    // next ticks are the first that it is billed in the new month. Each table is copied before it is emptied, so that no
    // word is lost if a caller dies in between: `mem::replace` would empty it first.
    pub fn close(
        &mut self,
        old_totals: &mut [u64; 256],
        old_most: &mut [u64; 256],
        old_numbers: &mut [u64; 256],
    )
        ensures value { ledger_of self.new ≡ spec.closed (ledger_of self.old) }
        ensures old_totals_after { (old_totals.new ≡ self.old.totals.now) × (old_most.new ≡ self.old.most.now) ×
            (old_numbers.new ≡ self.old.numbers.now) }
        ensures same_tables { SameTables self.old self.new }
    {
        *old_totals = *self.totals;
        self.totals.fill(0);
        *old_most = *self.most;
        self.most.fill(0);
        *old_numbers = *self.numbers;
        self.numbers.fill(0);
        self.running.billed = 0;
    }
}

// The report on an account; one over 255 is refused.
pub fn report<'a>(
    totals: &'a [u64; 256],
    most: &'a [u64; 256],
    numbers: &'a [u64; 256],
    account: u64,
) -> Result<Reported, Refusal>
    ensures { result ≡ spec.reported account totals.now most.now numbers.now }
{
    if ACCOUNTS <= account {
        return Err(Refusal::Account);
    }
    let place = account as usize;
    Ok(Reported {
        total: totals[place],
        most: most[place],
        number: numbers[place],
    })
}
