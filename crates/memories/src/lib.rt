// The lent memories by their lengths: the sizes that an array and a security register may have, and a look at one of
// them without a frame. The one crate that lists sizes. It sees lengths, never a byte, and nothing of flash or text.
#![tactic(auto)]

ghost use Rattle.std.specs.Prelude.{◌≡◌, ◌<◌, length};
ghost use Rattle.memories.specs.Sizes.{is_array, is_register};
ghost use Rattle.memories.specs.Look.{start_of, view_of, start_in, length_in, behind, looked_at, looked_from};

// Which of the lent memories.
#[derive(Clone, Copy, Debug, PartialEq, Eq)]
pub enum Memory {
    Array,
    Register,
}

// Whether an array of that length is the part's: its own, or the bench's small one.
pub fn is_array(length: usize) -> bool
    ensures { result ≡ is_array length }
{
    (length == 131072) | (length == 65536)
}

// Whether a security register of that length is the part's.
pub fn is_register(length: usize) -> bool
    ensures { result ≡ is_register length }
{
    length == 128
}

// The view of a memory that begins at an address; it has as many bytes as asked for, unless the memory ends before
// that.
fn view(memory: &[u8], address: usize, count: usize) -> &[u8]
    requires { 0 < length memory.now }
    ensures result_value { result.now ≡ view_of memory.now address count }
    ensures ref_ptr_value { result.ref_ptr ≡ behind memory.entry.ref_ptr (start_of memory.now address) }
{
    let rest = &memory[address % memory.len()..];
    &rest[..count.min(rest.len())]
}

// A view of the chosen memory itself: it begins at the address, reduced to the memory's size, and is as long as the
// count, but ends where the memory ends. It is empty if the memory's length is not right.
pub fn look<'a>(
    array: &'a [u8],
    register: &'a [u8],
    memory: Memory,
    address: usize,
    count: usize,
) -> &'a [u8]
    ensures result_value { result.now ≡ looked_at memory array.now register.now address count }
    ensures result_len { length result.now ≡ length_in memory (length array.now) (length register.now) address count }
    ensures ref_ptr_value { result.ref_ptr ≡ looked_from memory array.entry.ref_ptr register.entry.ref_ptr array.now register.now address }
{
    match memory {
        Memory::Array if is_array(array.len()) => view(array, address, count),
        Memory::Register if is_register(register.len()) => view(register, address, count),
        Memory::Array => &array[..0],
        Memory::Register => &register[..0],
    }
}

// Where in the chosen memory a look begins, for those who have no view of it to hold, but only numbers; at its first
// byte if the length is not right.
pub fn look_start(array: usize, register: usize, memory: Memory, address: usize) -> usize
    ensures { result ≡ start_in memory array register address }
{
    match memory {
        Memory::Array if is_array(array) => address % array,
        Memory::Register if is_register(register) => address % register,
        Memory::Array | Memory::Register => 0,
    }
}
