// What happens to the bytes of a lent memory: a range is set, a memory is copied out with wrap at its end. It knows
// slices and numbers, and nothing of flash. Each contract gives every byte afterwards as a function of its place and
// its old value.
#![tactic(auto)]

pub mod copy;
pub mod range;

ghost use Rattle.std.specs.Prelude.{◌≡◌, ◌%◌, ◌<◌};

// The place that a number names in a memory of that size: past the last place it goes on at 0. Most numbers are such a
// place already, and cost no division.
pub fn wrapped(number: usize, size: usize) -> usize
    requires { 0 < size }
    ensures value { result ≡ number % size }
    ensures upper_bound { result < size }
{
    if number < size { number } else { number % size }
}
