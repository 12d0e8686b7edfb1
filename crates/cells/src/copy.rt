// Copying from one memory to another, in straight runs. Bounds stand beside the output, since the definitions `run` and
// `copied`, and what is promised of output positions, speak of places in the whole of it.
ghost use Rattle.std.specs.Prelude.{◌≡◌, ◌+◌, ◌-◌, ◌≤◌, ◌<◌, length};
ghost use Rattle.cells.specs.Each.{each};
ghost use Rattle.cells.specs.Range.{copied, run};

// One straight run: the output from `from` up to `to` receives the memory from `start` on. By a loop: with
// `copy_from_slice` each run of a status read, which has two bytes, is a call, and an archive for C needs `memmove`.
pub fn copy_run(output: &mut [u8], from: usize, to: usize, memory: &[u8], start: usize)
    requires { (from ≤ to) × (to ≤ length output.old) × (start + (to - from) ≤ length memory.now) }
    ensures { output.new ≡ each (run from to memory.now start) output.old }
{
    for at in from..to {
        output[at] = memory[start + (at - from)];
    }
}

// The output from `from` up to `to` receives the memory from `start` on; past its last byte it goes on at 0.
pub fn copy_out(output: &mut [u8], from: usize, to: usize, memory: &[u8], start: usize)
    requires { (from ≤ to) × (to ≤ length output.old) × (start < length memory.now) }
    ensures { output.new ≡ each (copied from to memory.now start) output.old }
{
    let straight = from + (to - from).min(memory.len() - start);
    copy_run(output, from, straight, memory, start);
    for at in (straight..to).step_by(memory.len()) {
        copy_run(output, at, at + (to - at).min(memory.len()), memory, 0);
    }
}
