// Whether rule 4 has to compare the nodes that are pushed: not where a table of marks says that they differ.
ghost use Rattle.std.specs.Prelude.{◌≡◌, true, false, length};
ghost use Rattle.judge.specs.Inner.Entries.{entries_in};
ghost use Rattle.judge.specs.Inner.Replay.{Differ};

use call_log::{ENTRY_LENGTH, Entry};
use fields::pushed;
use marks::{MARK_BYTES, mark};

// Whether the nodes of all pushes differ.
fn differ(entries: &[[u8; ENTRY_LENGTH]]) -> bool
    ensures { result ≡ true → Differ (entries_in entries.now) (length entries.now) }
{
    let mut marks = [0; MARK_BYTES];
    for bytes in entries {
        let e = Entry::from(bytes);
        if !pushed(e) {
            continue;
        }
        if mark(&mut marks, e.node) {
            return false;
        }
    }
    true
}

// To clear the table takes longer than to compare the nodes of so few calls.
const FEW: usize = 32;

// Whether the nodes are to be watched, where so many calls have a moment.
pub(crate) fn watched(entries: &[[u8; ENTRY_LENGTH]], count: usize) -> bool
    ensures { result ≡ false → Differ (entries_in entries.now) (length entries.now) }
{
    count <= FEW || !differ(entries)
}
