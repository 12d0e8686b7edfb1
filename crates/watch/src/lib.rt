// What a run of calls knows of the ledger's tables: a number that no word of them is above. As long as it is not above
// the limit, no word is, and the tables need not be read again. It knows nothing of frames.
#![tactic(auto)]

ghost use Rattle.std.specs.Prelude.{◌≡◌};
ghost use Rattle.watch.specs.Watch as spec;

use ledger::LIMIT;
use settings::LONGEST;

// The largest word of both tables that refusal 9 asks for.
pub fn largest<'a>(totals: &'a [u64; 256], numbers: &'a [u64; 256]) -> u64
    ensures { result ≡ spec.top totals.now numbers.now }
{
    let mut top = 0;
    for (total, number) in totals.iter().zip(numbers) {
        top = (*total).max(*number).max(top);
    }
    top
}

// The same bound as before, if it says that no word is above the limit; else the largest word, found anew, which says
// whether one is.
pub fn watched<'a>(bound: u64, totals: &'a [u64; 256], numbers: &'a [u64; 256]) -> u64
    ensures { result ≡ spec.watched bound totals.now numbers.now }
{
    if LIMIT < bound {
        return largest(totals, numbers);
    }
    bound
}

// A bound after one call more: no call raises a word by more than the longest that an operation may take. Above the
// limit the bound stays: then no call is accepted.
pub fn raised(bound: u64) -> u64
    ensures { result ≡ spec.raised bound }
{
    if LIMIT < bound {
        return bound;
    }
    bound + LONGEST
}
