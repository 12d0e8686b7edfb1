// One frame for an account: busy ticks are billed to the account whose frame began the operation, whoever polls
// afterwards. It stands above the part and sees what that promises: refusal, outcome and busy ticks.
#![tactic(auto)]

ghost use Rattle.std.specs.Prelude.{◌≡◌};
ghost use Rattle.calls.specs.Lent.{SameMemories};
ghost use Rattle.part.specs.Frame.{call_of, lent_of, reply_of};
ghost use Rattle.ledger.specs.Lent.{ledger_of, SameTables};
ghost use Rattle.ledger.specs.Ledger as spec;
ghost use Rattle.watch.specs.Watch.{Bounded, watched, raised};
ghost use Rattle.ledger_frame.specs.Frame as through;

use calls::{Call, Lent};
use ledger::{ACCOUNTS, LIMIT, Ledger, is_shut};
use part::{Answer, frame, turned_away};
use refusals::Refusal;
use watch::{raised, watched};

// One call for an account, by somebody who knows whether the ledger is shut to it.
fn frame_knowing(
    shut: bool,
    call: &Call<'_>,
    lent: &mut Lent<'_>,
    account: u64,
    ledger: &mut Ledger<'_>,
) -> Result<Answer, Refusal>
    requires { shut ≡ spec.shut account (ledger_of ledger.old) }
    ensures meets { through.Meets (call_of call.now) (lent_of lent.old) account (ledger_of ledger.old)
        (reply_of call.now.device result) (lent_of lent.new) (ledger_of ledger.new) }
    ensures same_memories { SameMemories lent.old lent.new }
    ensures same_tables { SameTables ledger.old ledger.new }
{
    if shut {
        let lengths = lent.lengths(call.input.len());
        return Err(turned_away(Refusal::Account, call, lengths));
    }
    let came = frame(call, lent);
    ledger.book(call, &came, account);
    came
}

// One call for an account: whatever is handed in, it ends, and answers as the definition of a frame through the ledger
// says.
pub fn frame_for(
    call: &Call<'_>,
    lent: &mut Lent<'_>,
    account: u64,
    ledger: &mut Ledger<'_>,
) -> Result<Answer, Refusal>
    ensures meets { through.Meets (call_of call.now) (lent_of lent.old) account (ledger_of ledger.old)
        (reply_of call.now.device result) (lent_of lent.new) (ledger_of ledger.new) }
    ensures same_memories { SameMemories lent.old lent.new }
    ensures same_tables { SameTables ledger.old ledger.new }
{
    let totals = &mut *ledger.totals;
    let numbers = &mut *ledger.numbers;
    let shut = is_shut(account, totals, numbers);
    frame_knowing(shut, call, lent, account, ledger)
}

// The same call in a run that knows a number which no word of the tables is above: these are read only where that
// number is above the limit. The number becomes one that no word is above afterwards.
pub fn frame_watched(
    bound: &mut u64,
    call: &Call<'_>,
    lent: &mut Lent<'_>,
    account: u64,
    ledger: &mut Ledger<'_>,
) -> Result<Answer, Refusal>
    requires { Bounded bound.old (ledger_of ledger.old) }
    ensures meets { through.Meets (call_of call.now) (lent_of lent.old) account (ledger_of ledger.old)
        (reply_of call.now.device result) (lent_of lent.new) (ledger_of ledger.new) }
    ensures bound_after { bound.new ≡ raised (watched bound.old ledger.old.totals.now ledger.old.numbers.now) }
    ensures bounded { Bounded bound.new (ledger_of ledger.new) }
    ensures same_memories { SameMemories lent.old lent.new }
    ensures same_tables { SameTables ledger.old ledger.new }
{
    let totals = &mut *ledger.totals;
    let numbers = &mut *ledger.numbers;
    let known = watched(*bound, totals, numbers);
    *bound = raised(known);
    let shut = ACCOUNTS <= account || LIMIT < known;
    frame_knowing(shut, call, lent, account, ledger)
}
