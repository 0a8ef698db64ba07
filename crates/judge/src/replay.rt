// Rule 4: all queues at once, by rising moments. Queue q's nodes lie in the q-th row, from lo, the top, up to hi; its ends are 65,536 × hi + lo. In a ninth
// row lie all nodes that were pushed.
ghost use Rattle.std.specs.Prelude.{◌≡◌, true, false, [], ℕ, ◌^◌, ◌/◌, ◌≤◌, ◌<◌, ◌||◌, eqb, fold, get_or, length};
ghost use Rattle.call_log.specs.Numbers.{what as what_is};
ghost use Rattle.rules.specs.Rules.{lawful as lawful_is};
ghost use Rattle.rules.specs.Judge.{first4};
ghost use Rattle.judge.specs.Inner.Entries.{entries_in, found};
ghost use Rattle.judge.specs.Inner.Order.{Fields, Ordered};
ghost use Rattle.judge.specs.Inner.Replay.{Differ, new_in, held_in};

use call_log::{ENTRY_LENGTH, Entry, What};
use fields::{UPPER, moved, pushed};

// Whether a node is among others. It looks at all of them, without a test to leave, so that many are compared at once.
fn among(nodes: &[u16], node: u16) -> bool
    ensures { result ≡ fold (λ hit x. hit || eqb x node) false nodes.now }
{
    nodes.iter().fold(false, |hit, &x| hit | (x == node))
}

// Whether a call is lawful, by rule 4, on a queue with these ends in its row, after these pushes.
fn lawful(row: &[u16], pushed: &[u16], ends: usize, e: Entry) -> bool
    requires { (ends / 65536 ≤ length row.now) × (ends < 2 ^ 32) }
    ensures { result ≡ lawful_is (new_in pushed.now e.node) (what_is e) e.node (held_in row.now ends) }
{
    let lo = ends % UPPER;
    let hi = ends / UPPER;
    match e.what() {
        What::Pushed => !among(pushed, e.node),
        What::BottomNode => lo < hi && row[hi - 1] == e.node,
        What::BottomNil => hi <= lo,
        What::TopNode => lo < hi && row[lo] == e.node,
        What::Full | What::TopNil | What::TopLost => true,
    }
}

// The entry that breaks rule 4, the first by moment. The node is put above each queue's bottom by every call; only a push then moves the bottom over it.
// The pushed nodes are watched where it is not known that they differ.
pub(crate) fn first_unlawful<const WIDTH: usize>(
    entries: &[[u8; ENTRY_LENGTH]],
    keys: &[usize],
    queues: &mut [[u16; WIDTH]; 8],
    nodes: &mut [u16; WIDTH],
    watch: bool,
) -> Option<usize>
    requires fields { Fields (entries_in entries.now) (length entries.now) }
    requires ordered { Ordered (entries_in entries.now) (length entries.now) keys.now (length keys.now) }
    requires roomy { (length entries.now ≤ WIDTH) × (WIDTH ≤ 256) }
    requires rows { (q : ℕ) → q < 8 → length (get_or queues.old q []) ≡ WIDTH }
    requires differ { watch ≡ false → Differ (entries_in entries.now) (length entries.now) }
    ensures { result ≡ found (length entries.now) (first4 (entries_in entries.now) (length entries.now)) }
{
    let mut ends = [0u32; 8];
    let mut c = 0; // so many are in front; memory is lent, and no list can grow
    for key in keys {
        let j = key % 256;
        let e = Entry::from(&entries[j]);
        let q = usize::from(e.queue);
        let at = ends[q];
        let here = at as usize; // `usize` has no `From<u32>`
        if !lawful(&queues[q], &nodes[..c], here, e) {
            return Some(j);
        }
        queues[q][here / UPPER] = e.node;
        ends[q] = moved(at, e) as u32; // it fits, for at most 256 are pushed
        nodes[c] = e.node;
        // `&` and not `&&`: no branch, as the node is put there in any case.
        c += usize::from(pushed(e) & watch);
    }
    None
}
