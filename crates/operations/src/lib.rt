// The operations of a frame on the array and the register, and lists of them. It stands below the part and requires the
// right lengths.
#![tactic(auto)]

ghost use Rattle.std.specs.Prelude.{◌≡◌, ◌<◌, ◌+◌, ◌^◌, length, drop};
ghost use Rattle.cells.specs.Each.{each};
ghost use Rattle.operations.specs.Operations.{HasBlocks, cell_of, block_of, span, width_of};
ghost use Rattle.operations.specs.Operations.{on_array, on_register, range_of};
ghost use Rattle.operations.specs.Operations as spec;

use calls::address_of;
use cells::range::fill;
use cells::wrapped;
use judge::Action;
use opcodes::Region;
use pages::program_page;

// The places of the array from `from` up to, not including, `to`. The library's `Range<usize>` is not Copy, and an
// answer that holds this one is.
#[derive(Clone, Copy, Debug, PartialEq, Eq)]
pub struct Range {
    pub from: usize,
    pub to: usize,
}

// No place. An empty range says so; an Option around a range that may be empty would say it in two ways.
pub fn nowhere() -> Range
    ensures { result ≡ spec.nowhere }
{
    Range { from: 0, to: 0 }
}

// The block of `width` bytes that holds the place: the place's low address bits are ignored.
fn block(width: usize, place: usize) -> Range
    requires { (0 < width) × (block_of width place + width < 2 ^ 64) }
    ensures { result ≡ span (block_of width place) (block_of width place + width) }
{
    let from = place / width * width;
    Range {
        from,
        to: from + width,
    }
}

// The bytes of the input from a place on; none, if it has none there.
fn behind(input: &[u8], from: usize) -> &[u8]
    ensures { result.now ≡ drop from input.now }
{
    &input[from.min(input.len())..]
}

// Programs the page that the address names, and says which it is.
#[tactic(auto, using(pages::proofs::Laws::put_programmed))]
fn program(array: &mut [u8], input: &[u8]) -> Range
    requires { HasBlocks (length array.old) }
    ensures value { result ≡ range_of (on_array Action.Program (length array.old) input.now) }
    ensures array_after { array.new ≡ each (cell_of (on_array Action.Program (length array.old) input.now)) array.old }
{
    let place = wrapped(address_of(input), array.len());
    let page = block(256, place);
    let sent = behind(input, 4);
    // By `page.to` the compiler would not know the page's size, and would not unroll the loop of a whole page.
    program_page(&mut array[page.from..page.from + 256], place % 256, sent);
    page
}

// Programs the user's bytes of the register.
fn program_once(register: &mut [u8], input: &[u8])
    requires { length register.old ≡ 128 }
    ensures { register.new ≡ each (cell_of (on_register Action.Otp input.now)) register.old }
{
    let start = address_of(input) % 64;
    program_page(&mut register[0..64], start, behind(input, 4));
}

// How many bytes a region has, in an array of that size.
fn width_of(region: Region, size: usize) -> usize
    ensures { result ≡ width_of region size }
{
    match region {
        Region::Page => 256,
        Region::Small => 4096,
        Region::Large => 32768,
        Region::Chip => size,
    }
}

// Erases the block of the region's width that the address names, and says which it is.
#[tactic(auto, using(crate::proofs::Blocks::block_inside))]
fn erase(array: &mut [u8], region: Region, input: &[u8]) -> Range
    requires { HasBlocks (length array.old) }
    ensures value { result ≡ range_of (on_array (Action.Erase region) (length array.old) input.now) }
    ensures array_after { array.new ≡ each (cell_of (on_array (Action.Erase region) (length array.old) input.now)) array.old }
{
    let size = array.len();
    let erased = block(width_of(region, size), wrapped(address_of(input), size));
    fill(array, erased.from, erased.to, 255);
    erased
}

// What is to be done with the memories is done. The answer is the range of the array that it lies in.
#[tactic(auto, using(cells::proofs::Places::each_same))]
pub fn carry_out(action: Action, array: &mut [u8], register: &mut [u8], input: &[u8]) -> Range
    requires { HasBlocks (length array.old) × (length register.old ≡ 128) }
    ensures value { result ≡ range_of (on_array action (length array.old) input.now) }
    ensures array_after { array.new ≡ each (cell_of (on_array action (length array.old) input.now)) array.old }
    ensures register_after { register.new ≡ each (cell_of (on_register action input.now)) register.old }
{
    match action {
        Action::Program => program(array, input),
        Action::Erase(region) => erase(array, region, input),
        Action::Otp => {
            program_once(register, input);
            nowhere()
        }
        Action::Still | Action::Drive(_) => nowhere(),
    }
}
