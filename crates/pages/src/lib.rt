// Programming a page. Data that is shorter than the page is ANDed in where it aims; other data goes through a page
// buffer. It knows pages of up to 256 bytes, and nothing of flash.
#![tactic(auto)]

ghost use Rattle.std.specs.Prelude.{◌≡◌, ◌+◌, ◌≤◌, ◌<◌, length};
ghost use Rattle.cells.specs.Each.{each};
ghost use Rattle.pages.specs.Page.{loaded, anded_in, programmed};

// The data is ANDed into the bytes from the first one on, a byte at a time.
fn and_each(bytes: &mut [u8], sent: &[u8])
    requires { length sent.now ≤ length bytes.old }
    ensures { bytes.new ≡ each (anded_in 0 sent.now) bytes.old }
{
    for i in 0..sent.len() {
        bytes[i] &= sent[i];
    }
}

// The same for four bytes, kept beside it for its speed: most programs have four, and the loop is slower for these
// (docs/DECISIONS.md, 106).
fn and_four(bytes: &mut [u8], sent: &[u8])
    requires { (4 ≤ length bytes.old) × (length sent.now ≡ 4) }
    ensures { bytes.new ≡ each (anded_in 0 sent.now) bytes.old }
{
    let a = bytes[0] & sent[0];
    let b = bytes[1] & sent[1];
    let c = bytes[2] & sent[2];
    let d = bytes[3] & sent[3];
    bytes[0] = a;
    bytes[1] = b;
    bytes[2] = c;
    bytes[3] = d;
}

// The same by whichever of the two is the shorter way.
fn and_in(bytes: &mut [u8], sent: &[u8])
    requires { length sent.now ≤ length bytes.old }
    ensures { bytes.new ≡ each (anded_in 0 sent.now) bytes.old }
{
    if sent.len() == 4 {
        and_four(bytes, sent);
        return;
    }
    and_each(bytes, sent);
}

// Programs a page with data that goes past its end and is shorter than the page: no two bytes aim at one place. One run
// goes up to the page's end, and what is left goes on at its beginning.
fn program_around(page: &mut [u8], start: usize, sent: &[u8])
    requires start_inside { start < length page.old }
    requires size_bound { (length page.old < start + length sent.now) × (length sent.now < length page.old) }
    ensures { page.new ≡ each (programmed (length page.old) 0 start sent.now) page.old }
{
    let room = page.len() - start;
    and_each(&mut page[start..], &sent[..room]);
    and_each(page, &sent[room..]);
}

// The buffer receives all data by wrapped offset, the first byte at `start`: in runs up to its end, a later run
// replacing an earlier one.
fn load(buffer: &mut [u8], start: usize, sent: &[u8])
    requires { start < length buffer.old }
    ensures { buffer.new ≡ each (loaded (length buffer.old) start sent.now) buffer.old }
{
    let size = buffer.len();
    let (straight, rest) = sent.split_at(sent.len().min(size - start));
    buffer[start..start + straight.len()].copy_from_slice(straight);
    for part in rest.chunks(size) {
        buffer[..part.len()].copy_from_slice(part);
    }
}

// Programs a page with any data: a page buffer of FFh receives it, and is ANDed into the page.
fn program_buffered(page: &mut [u8], start: usize, sent: &[u8])
    requires { (start < length page.old) × (length page.old ≤ 256) }
    ensures { page.new ≡ each (programmed (length page.old) 0 start sent.now) page.old }
{
    let mut buffer = [255; 256];
    load(&mut buffer[..page.len()], start, sent);
    and_each(page, &buffer[..page.len()]);
}

// Programs a page with the data, whose first byte aims at the offset `start`. Data that is shorter than the page and does
// not go past its end is one run.
pub fn program_page(page: &mut [u8], start: usize, sent: &[u8])
    requires { (start < length page.old) × (length page.old ≤ 256) }
    ensures { page.new ≡ each (programmed (length page.old) 0 start sent.now) page.old }
{
    if page.len() <= sent.len() {
        program_buffered(page, start, sent);
        return;
    }
    if sent.len() <= page.len() - start {
        and_in(&mut page[start..], sent);
        return;
    }
    program_around(page, start, sent);
}
