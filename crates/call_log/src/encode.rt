// The length of a log, and an entry and the head of one, written into a buffer.
ghost use Rattle.std.specs.Prelude.{◌≡◌, leb, length};
ghost use Rattle.base.specs.Bytes.{put_at};
ghost use Rattle.call_log.specs.Decode.{log_length};
ghost use Rattle.call_log.specs.Encode.{entry_bytes, head_bytes};

use crate::{ENTRY_LENGTH, Entry, HEAD_LENGTH, SECTION_COUNT};
use base::{high, low, put};

// The length of a log of so many entries, which is also where its next one would begin.
pub fn length_of(entries: u16) -> usize
    ensures { result ≡ log_length entries }
{
    HEAD_LENGTH + ENTRY_LENGTH * usize::from(entries)
}

// Whether a buffer has room for a log of so many entries.
pub fn has_room(buffer: &[u8], entries: u16) -> bool
    ensures { result ≡ leb (log_length entries) (length buffer.now) }
{
    length_of(entries) <= buffer.len()
}

// Puts the bytes before the entries: section 1, and how many entries follow.
pub fn put_head(buffer: &mut [u8], processes: u8, slots: u8, entries: u16)
    ensures { buffer.new ≡ put_at 0 (head_bytes processes slots entries) buffer.old }
{
    let [high, low] = entries.to_be_bytes();
    put(buffer, 0, &[SECTION_COUNT, processes, slots, high, low])
}

impl From<Entry> for [u8; ENTRY_LENGTH] {
    ghost from_gives = { λ entry bytes. bytes ≡ entry_bytes entry };

    fn from(entry: Entry) -> [u8; ENTRY_LENGTH] {
        [
            entry.process,
            entry.queue,
            entry.kind,
            entry.result,
            high(entry.node),
            low(entry.node),
            high(entry.start),
            low(entry.start),
            high(entry.end),
            low(entry.end),
            high(entry.moment),
            low(entry.moment),
        ]
    }
}

// Puts an entry's twelve bytes at a place.
pub fn put_entry(buffer: &mut [u8], at: usize, entry: Entry)
    ensures { buffer.new ≡ put_at at (entry_bytes entry) buffer.old }
{
    put(buffer, at, &<[u8; ENTRY_LENGTH]>::from(entry))
}
