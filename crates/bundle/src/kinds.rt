// Which commands of a bundle name a link, and have two bytes of operands, and which name a task.
ghost use Rattle.std.specs.Prelude.{◌≡◌};
ghost use Rattle.bundle.specs.Kinds.{is_message, is_task, size_by};

use crate::{DISCARD_BYTE, LONG_SIZE, RECEIVE_BYTE, RELEASE_BYTE, RUN_BYTE, SEND_BYTE, SHORT_SIZE};

// Whether this is the byte of a send, a receive or the release of a message.
pub fn is_message(command: u16) -> bool
    ensures { result ≡ is_message command }
{
    matches!(command, SEND_BYTE | RECEIVE_BYTE | DISCARD_BYTE)
}

// How many bytes the command of this byte has.
pub fn size_of(command: u16) -> usize
    ensures { result ≡ size_by command }
{
    if is_message(command) {
        LONG_SIZE
    } else {
        SHORT_SIZE
    }
}

// Whether this is the byte of a run or the release of a result.
pub fn is_task(command: u16) -> bool
    ensures { result ≡ is_task command }
{
    matches!(command, RUN_BYTE | RELEASE_BYTE)
}
