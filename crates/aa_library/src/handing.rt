//! How texts are put into the buffers of a caller.

ghost use Rattle.std.specs.Prelude.{◌≡◌, ◌≤◌, length};
ghost use Rattle.aa_library.specs.Answered.{HandsOut, front_of, put};

/// The status that a buffer has no room for its text.
pub const TOO_SMALL: u32 = 5;

/// How many bytes a text takes, and the line on a fault.
#[repr(C)]
#[derive(Clone, Copy, Debug)]
pub struct Sizes {
    pub text: usize,
    pub fault: usize,
}

/// Copies a text to the front of a buffer.
pub fn put(text: &[u8], buffer: &mut [u8])
    requires { length text.now ≤ length buffer.old }
    ensures { buffer.new ≡ put text.now buffer.old }
{
    buffer[..text.len()].copy_from_slice(text);
}

/// Hands out a text with a status, if the buffer has room for it. Else nothing is written.
pub fn hand_out(text: &[u8], status: u32, buffer: &mut [u8]) -> u32
    ensures { HandsOut text.now status buffer.old buffer.new result }
{
    if text.len() > buffer.len() {
        return TOO_SMALL;
    }
    put(text, buffer);
    status
}

/// Hands out as much of a line as the buffer has room for.
pub fn hand_front(line: &[u8], buffer: &mut [u8])
    ensures { buffer.new ≡ front_of line.now buffer.old }
{
    let room = line.len().min(buffer.len());
    put(&line[..room], buffer);
}
