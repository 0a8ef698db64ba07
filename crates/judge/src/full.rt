// Rule 6: one pass in file order. A NIL bottom pop begins its queue's counts anew.
ghost use Rattle.std.specs.Prelude.{◌≡◌, ◌^◌, ◌≤◌, ◌<◌, length};
ghost use Rattle.call_log.specs.Numbers.{what as what_is};
ghost use Rattle.rules.specs.Search.{any};
ghost use Rattle.rules.specs.Judge.{first6};
ghost use Rattle.judge.specs.Inner.Entries.{entries_in, found};
ghost use Rattle.judge.specs.Inner.Order.{Fields, is_full};
ghost use Rattle.judge.specs.Inner.Full.{counts_after};

use call_log::{ENTRY_LENGTH, Entry, What};
use fields::{UPPER, full};

// What a call makes of its queue's counts: 65,536 times the done pushes plus the nodes taken at the bottom.
fn counts_after(e: Entry, counts: usize) -> usize
    requires { counts < 2 ^ 32 }
    ensures { result ≡ counts_after (what_is e) counts }
{
    match e.what() {
        What::Pushed => counts + UPPER,
        What::BottomNode => counts + 1,
        What::BottomNil => 0,
        What::Full | What::TopNode | What::TopNil | What::TopLost => counts,
    }
}

// The first entry that breaks rule 6. Few logs have a FULL, and where there is none nothing is counted.
pub(crate) fn first_unfilled(
    entries: &[[u8; ENTRY_LENGTH]],
    slots: u8,
    refused: bool,
) -> Option<usize>
    requires few { length entries.now ≤ 256 }
    requires fields { Fields (entries_in entries.now) (length entries.now) }
    requires told { refused ≡ any (is_full (entries_in entries.now)) (length entries.now) }
    ensures { result ≡ found (length entries.now) (first6 (entries_in entries.now) (length entries.now) slots) }
{
    if refused {
        unfilled_by_counts(entries, slots)
    } else {
        None
    }
}

// The same by counting the calls of each queue.
fn unfilled_by_counts(entries: &[[u8; ENTRY_LENGTH]], slots: u8) -> Option<usize>
    requires few { length entries.now ≤ 256 }
    requires fields { Fields (entries_in entries.now) (length entries.now) }
    ensures { result ≡ found (length entries.now) (first6 (entries_in entries.now) (length entries.now) slots) }
{
    let mut counts = [0; 8];
    for (j, bytes) in entries.iter().enumerate() {
        let e = Entry::from(bytes);
        let q = usize::from(e.queue);
        let there = counts[q];
        // `&` and not `&&`: one branch an entry.
        if full(e) & (there / UPPER < usize::from(slots) + there % UPPER) {
            return Some(j);
        }
        counts[q] = counts_after(e, there);
    }
    None
}
