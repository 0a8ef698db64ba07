// The judge of a log. It reads the log alone: each rule is one pass over the entries, in file order or by rising moments.
#![tactic(auto)]

ghost use Rattle.std.specs.Prelude.{◌≡◌, ◌≤◌, ◌<◌, ℕ, length};
ghost use Rattle.call_log.specs.Decode.{entry_at};
ghost use Rattle.judge.specs.Inner.Entries.{entries_in};
ghost use Rattle.judge.specs.Inner.Order.{Fields, EndsKept, Whole, is_full};
ghost use Rattle.judge.specs.Inner.Causes.{Clean, Kept34};
ghost use Rattle.rules.specs.Search.{any};
ghost use Rattle.rules.specs.Judge.{says, rule_number, verdict_in, moment_rules_of, rules_of, head_right, judge_of};

mod entries; // rule 1
mod ends; // rule 2
mod order; // rule 3, and the calls by rising moment
mod nodes; // whether the pushed nodes differ
mod replay; // rule 4
mod causes; // rule 5
mod full; // rule 6
mod ordered; // the calls of any log by rising moment

pub use crate::ordered::in_order;
use call_log::{ENTRY_LENGTH, HEAD_LENGTH};
pub use rules::{Fault, Rule};

// A refusal for an entry.
fn fault(rule: Rule, entry: usize) -> Result<(), Fault>
    requires { entry < 65536 }
    ensures { verdict_in result ≡ says (rule_number rule) entry }
{
    Err(Fault {
        rule,
        entry: entry as u16, // it fits, by the `requires`
    })
}

// The entries of a log that is whole.
fn entries_of(log: &[u8]) -> &[[u8; ENTRY_LENGTH]]
    requires { 5 ≤ length log.now }
    ensures { (n : ℕ) → Whole log.now n → (length result.now ≡ n) × (entries_in result.now ≡ entry_at log.now) }
{
    log[HEAD_LENGTH..].as_chunks().0
}

// The rules in order, each over the whole log: 1 and 2, then the others.
// Tried: `Entries { all, ghost few, ghost fields }` for the facts of the passes; that `Fields` is a proposition (`fields-found`) stays open at
// `IsNil` of rule 1, which goes by cases, and with `few` alone `Fields` still stands in each contract.
fn rules(entries: &[[u8; ENTRY_LENGTH]], p: u8, slots: u8) -> Result<(), Fault>
    requires { (length entries.now ≤ 256) × (p ≤ 8) }
    ensures { verdict_in result ≡ rules_of (entries_in entries.now) (length entries.now) p slots }
{
    if let Some(at) = entries::first_wrong(entries, p) {
        return fault(Rule::Fields, at);
    }
    if let Some(at) = ends::first_clash(entries) {
        return fault(Rule::Ends, at);
    }
    moment_rules(entries, slots)
}

// Rules 3 to 6, which speak of moments, with arrays no larger than the log needs: the judge clears them.
fn moment_rules(entries: &[[u8; ENTRY_LENGTH]], slots: u8) -> Result<(), Fault>
    requires few { length entries.now ≤ 256 }
    requires fields { Fields (entries_in entries.now) (length entries.now) }
    requires ends { EndsKept (entries_in entries.now) (length entries.now) }
    ensures { verdict_in result ≡ moment_rules_of (entries_in entries.now) (length entries.now) slots }
{
    match entries.len() {
        0..=8 => moment_rules_in::<8>(entries, slots),
        9..=32 => moment_rules_in::<32>(entries, slots),
        _ => moment_rules_in::<256>(entries, slots),
    }
}

// The same in arrays for the keys of so many entries, for the nodes of each of eight queues, and for those of all pushes.
fn moment_rules_in<const WIDTH: usize>(
    entries: &[[u8; ENTRY_LENGTH]],
    slots: u8,
) -> Result<(), Fault>
    requires fields { Fields (entries_in entries.now) (length entries.now) }
    requires ends { EndsKept (entries_in entries.now) (length entries.now) }
    requires roomy { (length entries.now ≤ WIDTH) × (WIDTH ≤ 256) }
    ensures { verdict_in result ≡ moment_rules_of (entries_in entries.now) (length entries.now) slots }
{
    let mut keys = [0; WIDTH];
    let mut queues = [[0; WIDTH]; 8];
    let mut nodes = [0; WIDTH];
    let sorted = match order::by_moment(entries, &mut keys) {
        Ok(sorted) => sorted,
        Err(at) => return fault(Rule::Moments, at),
    };
    let keys = &keys[..sorted.count];
    let watch = nodes::watched(entries, sorted.count);
    if let Some(at) = replay::first_unlawful(entries, keys, &mut queues, &mut nodes, watch) {
        return fault(Rule::Contents, at);
    }
    last_rules(entries, slots, keys, sorted.full)
}

// Rules 5 and 6, where the others are kept.
fn last_rules(
    entries: &[[u8; ENTRY_LENGTH]],
    slots: u8,
    keys: &[usize],
    refused: bool,
) -> Result<(), Fault>
    requires clean { Clean (entries_in entries.now) (length entries.now) keys.now (length keys.now) }
    requires kept { Kept34 (entries_in entries.now) (length entries.now) }
    requires told { refused ≡ any (is_full (entries_in entries.now)) (length entries.now) }
    ensures { verdict_in result ≡ moment_rules_of (entries_in entries.now) (length entries.now) slots }
{
    if let Some(at) = causes::first_uncaused(entries, keys) {
        return fault(Rule::Causes, at);
    }
    if let Some(at) = full::first_unfilled(entries, slots, refused) {
        return fault(Rule::Full, at);
    }
    Ok(())
}

// Section 1's count, P and C are right, and there are not too many entries.
fn head_right(count: u8, p: u8, slots: u8, n: usize) -> bool
    ensures { result ≡ head_right count p slots n }
{
    count == call_log::SECTION_COUNT
        && (1..=8).contains(&p)
        && (1..=64).contains(&slots)
        && n <= call_log::MOST_ENTRIES
}

// The judge, of any bytes.
pub fn judge(log: &[u8]) -> Result<(), Fault>
    ensures { verdict_in result ≡ judge_of log.now }
{
    if log.len() < HEAD_LENGTH {
        return fault(Rule::CutShort, 0);
    }
    let count = base::byte_at(log, 0);
    let p = base::byte_at(log, 1);
    let slots = base::byte_at(log, 2);
    let entries = base::number_at(log, 3);
    if !head_right(count, p, slots, usize::from(entries)) {
        return fault(Rule::Head, 0);
    }
    let whole = call_log::length_of(entries);
    if log.len() < whole {
        return fault(Rule::CutShort, 0);
    }
    if whole < log.len() {
        return fault(Rule::TooLong, 0);
    }
    rules(entries_of(log), p, slots)
}
