// Rule 5: one pass in file order over the NIL top pops, whose ends rise; the calls up to each one's end are gone through by rising moments.
ghost use Rattle.std.specs.Prelude.{◌≡◌, ◌&&◌, cond, ◌^◌, ◌≤◌, ◌<◌, ltb, leb, length, Some, None};
ghost use Rattle.rules.specs.Judge.{first5};
ghost use Rattle.keys.specs.Inner.Keys.{moment_at, index_at};
ghost use Rattle.judge.specs.Inner.Entries.{entries_in, found};
ghost use Rattle.judge.specs.Inner.Causes.{shelf_after, passed_by, Passable, uncaused_by, Clean};

use call_log::{ENTRY_LENGTH, Entry, What};
use fields::{took_after, top_nil};

// A shelf is this many times how many nodes its queue holds, plus the moment at which it was filled.
const SHELVED: u32 = 65536;

// What a call makes of its queue's shelf.
fn shelf_after(e: Entry, shelf: u32) -> u32
    requires { shelf < 2 ^ 31 }
    ensures { result ≡ shelf_after e shelf }
{
    match e.what() {
        What::Pushed if shelf < SHELVED => SHELVED + u32::from(e.moment),
        What::Pushed => shelf + SHELVED,
        What::BottomNode | What::TopNode if SHELVED <= shelf => shelf - SHELVED,
        _ => shelf,
    }
}

// Goes past a call, whose moment is the next. Queue q's shelf lies at q, and at 8 + 8 * q + p the moment after process p's last take from it.
// One lent array of fixed memory and no struct of two: `passed_by` and `Passable`, and the laws of shelves under them, speak of places in one list.
fn pass(e: Entry, shelves: &mut [u32; 72])
    requires { Passable e shelves.old }
    ensures { shelves.new ≡ passed_by e shelves.old }
{
    let q = usize::from(e.queue);
    let at = 8 * q + usize::from(e.process) + 8;
    shelves[q] = shelf_after(e, shelves[q]);
    shelves[at] = took_after(e, shelves[at]);
}

// The entry of key k, where there is one and its moment is up to this one.
fn due(keys: &[usize], k: usize, to: usize) -> Option<usize>
    ensures { result ≡ cond (ltb k (length keys.now) && leb (moment_at keys.now k) to) (Some (index_at keys.now k)) None }
{
    match keys.get(k) {
        Some(key) if key / 256 <= to => Some(key % 256),
        _ => None,
    }
}

// Whether a NIL top pop has no cause, where all moments up to its end have been gone through: its queue holds a node, and has since its start, and no
// other process took from the top of it since.
fn uncaused(shelves: &[u32; 72], nil: Entry) -> bool
    requires { (nil.queue < 8) × (nil.start < 32768) }
    ensures { result ≡ uncaused_by shelves.now nil }
{
    // `&` and not `&&`: no branch, so that the eight processes are looked at side by side.
    let on = usize::from(nil.queue);
    let process = usize::from(nil.process);
    let from = 2 * u32::from(nil.start);
    let mut other = false;
    // by index: the last takes from this queue lie among those of all
    for p in 0..8 {
        let last = shelves[8 * on + p + 8];
        other |= (p != process) & (from < last);
    }
    let shelf = shelves[on];
    (SHELVED <= shelf) & (shelf % SHELVED <= from) & !other
}

// The first entry that breaks rule 5. The loop goes on in one of two ways, past a key or past an entry: a `for` over the entries needs a second loop
// in it past the keys that are due, which carries k from one entry to the next, and a function has one loop.
pub(crate) fn first_uncaused(entries: &[[u8; ENTRY_LENGTH]], keys: &[usize]) -> Option<usize>
    requires { Clean (entries_in entries.now) (length entries.now) keys.now (length keys.now) }
    ensures { result ≡ found (length entries.now) (first5 (entries_in entries.now) (length entries.now)) }
{
    let mut shelves = [0u32; 72];
    let mut k = 0;
    let mut j = 0;
    while j < entries.len() {
        let nil = Entry::from(&entries[j]);
        if !top_nil(nil) {
            j += 1;
            continue;
        }
        let to = 2 * usize::from(nil.end) + 1;
        if let Some(next) = due(keys, k, to) {
            pass(Entry::from(&entries[next]), &mut shelves);
            k += 1;
            continue;
        }
        if uncaused(&shelves, nil) {
            return Some(j);
        }
        j += 1;
    }
    None
}
