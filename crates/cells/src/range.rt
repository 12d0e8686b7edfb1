// Setting a range of a memory to one value. Bounds stand beside the memory, since the definition `filled`, and what is
// promised of erases, speak of places in the whole of it.
ghost use Rattle.std.specs.Prelude.{◌≡◌, ◌≤◌, length};
ghost use Rattle.cells.specs.Each.{each};
ghost use Rattle.cells.specs.Range.{filled};

// The bytes from `from` up to `to` become `value`.
#[tactic(auto, using(crate::proofs::Runs::put_stored))]
pub fn fill(memory: &mut [u8], from: usize, to: usize, value: u8)
    requires { (from ≤ to) × (to ≤ length memory.old) }
    ensures { memory.new ≡ each (filled from to value) memory.old }
{
    memory[from..to].fill(value);
}
