// What stands in a log's bytes. Bytes past the end read as 0.
ghost use Rattle.std.specs.Prelude.{◌≡◌};
ghost use Rattle.call_log.specs.Decode.{first_entry, entry_at};

use crate::{ENTRY_LENGTH, Entry, HEAD_LENGTH};
use base::byte_at;

impl From<&[u8; ENTRY_LENGTH]> for Entry {
    ghost from_gives = { λ bytes entry. entry ≡ first_entry bytes.now };

    fn from(bytes: &[u8; ENTRY_LENGTH]) -> Entry {
        Entry {
            process: bytes[0],
            queue: bytes[1],
            kind: bytes[2],
            result: bytes[3],
            node: u16::from_be_bytes([bytes[4], bytes[5]]),
            start: u16::from_be_bytes([bytes[6], bytes[7]]),
            end: u16::from_be_bytes([bytes[8], bytes[9]]),
            moment: u16::from_be_bytes([bytes[10], bytes[11]]),
        }
    }
}

// Entry i of a log. The test keeps the sum after it from wrapping.
pub fn entry_at(log: &[u8], i: usize) -> Entry
    ensures { result ≡ entry_at log.now i }
{
    if log.len() / ENTRY_LENGTH < i {
        return Entry::default();
    }
    let at = HEAD_LENGTH + ENTRY_LENGTH * i;
    // tried: `array::from_fn`, whose clause gives no equation for a closure that captures the log
    let mut bytes = [0; ENTRY_LENGTH];
    for (k, byte) in bytes.iter_mut().enumerate() {
        *byte = byte_at(log, at + k);
    }
    Entry::from(&bytes)
}
