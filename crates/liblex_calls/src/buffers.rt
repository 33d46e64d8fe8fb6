//! Buffers of a caller.
ghost use Rattle.std.specs.Prelude.{◌≡◌, ◌≤◌, length};
ghost use Rattle.liblex_calls.specs.Buffers.{HandedOut, FitsInto};

use crate::answer::Answer;

/// Copies the items to the front of a buffer, as many as it has room for, and tells how many there are.
pub(crate) fn hand_out<T: Copy>(items: &[T], buffer: &mut [T], count: &mut usize) -> Answer
    ensures handed { HandedOut items.now buffer.old buffer.new count.new }
    ensures fits { FitsInto items.now buffer.old result }
{
    *count = items.len();
    let room = items.len().min(buffer.len());
    buffer[..room].copy_from_slice(&items[..room]);
    if items.len() <= buffer.len() {
        Answer::Done
    } else {
        Answer::TooSmall
    }
}
