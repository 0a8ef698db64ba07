// Rule 2: one pass in file order, with the last end of all and that of each process.
ghost use Rattle.std.specs.Prelude.{◌≡◌, length};
ghost use Rattle.rules.specs.Judge.{first2};
ghost use Rattle.judge.specs.Inner.Entries.{entries_in, found};
ghost use Rattle.judge.specs.Inner.Order.{Fields};

use call_log::{ENTRY_LENGTH, Entry};

// The first entry that breaks rule 2. `last` and `own` are steps from which on the next call may end, and the next of a process begin.
pub(crate) fn first_clash(entries: &[[u8; ENTRY_LENGTH]]) -> Option<usize>
    requires { Fields (entries_in entries.now) (length entries.now) }
    ensures { result ≡ found (length entries.now) (first2 (entries_in entries.now) (length entries.now)) }
{
    let mut last = 0;
    let mut own = [0u16; 8];
    for (i, bytes) in entries.iter().enumerate() {
        let e = Entry::from(bytes);
        let p = usize::from(e.process);
        // `|` and not `||`: one branch an entry.
        if (e.end < last) | (e.start < own[p]) {
            return Some(i);
        }
        last = e.end + 1;
        own[p] = last;
    }
    None
}
