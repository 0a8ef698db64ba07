// What an entry says by itself: rules 1 and 3 of one entry, what its call did, by kind and result alone, and what that makes of its queue's ends.
#![tactic(auto)]

ghost use Rattle.std.specs.Prelude.{◌≡◌, cond, eqb};
ghost use Rattle.call_log.specs.Numbers.{what as what_is, same, is_top_nil, no_moment};
ghost use Rattle.rules.specs.Contents.{bears as bears_is};
ghost use Rattle.rules.specs.Rules.{keeps1, in_call};
ghost use Rattle.fields.specs.Inner.Ends.{ends_after};
ghost use Rattle.fields.specs.Inner.Fields.{possible};
ghost use Rattle.fields.specs.Inner.Took.{took_after};

use call_log::{BOTTOM_POP, DONE, Entry, FULL, LOST, NIL, NO_MOMENT, PUSH, TOP_POP, What};

// Two numbers lie in one: the upper one times this, and the lower one. The public promise `ends_after` of `moved` speaks of the one number, and a pass
// keeps one in place of two for speed.
pub const UPPER: usize = 65536;

// The last step at which a call may end, by rule 1.
const LAST_END: u16 = 32766;

// Whether a call can have had such a result, with a node or with none. `&` and `|` and no `match`, here and in the four tests of an entry: nothing
// foretells what the next call did, so that a branch on each case costs more than all comparisons.
fn possible(kind: u8, res: u8, with_node: bool) -> bool
    ensures { result ≡ possible kind res with_node }
{
    let pop = (kind == BOTTOM_POP) | (kind == TOP_POP);
    let node = (kind == PUSH) & ((res == DONE) | (res == FULL)) | pop & (res == DONE);
    let none = pop & (res == NIL) | (kind == TOP_POP) & (res == LOST);
    if with_node { node } else { none }
}

// Rule 1.
pub fn keeps_fields(p: u8, e: Entry) -> bool
    ensures { result ≡ keeps1 p e }
{
    // `&` and not `&&`: no branches, for nearly all entries keep all of it.
    (e.process < p)
        & (e.queue < p)
        & possible(e.kind, e.result, e.node != 0)
        & ((e.kind == TOP_POP) | (e.process == e.queue))
        & (e.start <= e.end)
        & (e.end <= LAST_END)
}

// Rule 3 of one entry: a moment in the call's time where one is wanted, else none.
pub fn moment_right(wanted: bool, e: Entry) -> bool
    ensures { result ≡ cond wanted (in_call e e.moment) (eqb e.moment no_moment) }
{
    if wanted {
        let from = 2 * u32::from(e.start);
        let to = 2 * u32::from(e.end) + 1;
        (from..=to).contains(&u32::from(e.moment))
    } else {
        e.moment == NO_MOMENT
    }
}

// Whether the call bears a moment, was a done push, a refused one, gave no node at the top.
// Four public tests, each with its own promise (`bears`, `same` of `Pushed` and of `Full`, `is_top_nil`), so that none takes its `What` as an argument.
pub fn bears(e: Entry) -> bool
    ensures { result ≡ bears_is e }
{
    (e.kind == BOTTOM_POP) | (e.result == DONE)
}

pub fn pushed(e: Entry) -> bool
    ensures { result ≡ same What.Pushed (what_is e) }
{
    (e.kind == PUSH) & (e.result == DONE)
}

pub fn full(e: Entry) -> bool
    ensures { result ≡ same What.Full (what_is e) }
{
    (e.kind == PUSH) & (e.result != DONE)
}

pub fn top_nil(e: Entry) -> bool
    ensures { result ≡ is_top_nil (what_is e) }
{
    (e.kind != PUSH) & (e.kind != BOTTOM_POP) & (e.result != DONE)
}

// The moment after the last take of the call's process from its queue, where it was this before the call; 0 is none, by the public promise `took_after`.
pub fn took_after(e: Entry, took: u32) -> u32
    ensures { result ≡ took_after e took }
{
    match e.what() {
        What::TopNode => u32::from(e.moment) + 1,
        _ => took,
    }
}

// What a call makes of its queue's ends. They come in 32 bits, so that there is room for a push whatever they are; `usize` has no `From<u32>`.
pub fn moved(ends: u32, e: Entry) -> usize
    ensures { result ≡ ends_after (what_is e) ends }
{
    let at = ends as usize;
    let held = at % UPPER < at / UPPER;
    match e.what() {
        What::Pushed => at + UPPER,
        What::BottomNode if held => at - UPPER,
        What::TopNode if held => at + 1,
        _ => at,
    }
}
