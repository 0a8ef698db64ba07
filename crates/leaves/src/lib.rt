// What is left in a queue: its calls by rising moment, from an empty row. Its nodes lie from lo, the top, up to hi; its ends are 65,536 × hi + lo.
#![tactic(auto)]

ghost use Rattle.std.specs.Prelude.{◌≡◌, ◌≤◌, true, false, length, IfErr, OnOk};
ghost use Rattle.call_log.specs.Decode.{entry_count_of, entry_at};
ghost use Rattle.rules.specs.Judge.{rule_number, judge_of};
ghost use Rattle.rules.specs.Left.{Leaves, unordered, refusal_in, count_in};
ghost use Rattle.fields.specs.Inner.Ends.{lo_of, hi_of};
ghost use Rattle.judge.specs.Inner.Order.{Ordered};
ghost use Rattle.leaves.specs.Inner.Lies.{LiesIn};

use fields::UPPER;
use rules::Rule;

// The judge's refusal of a log that is not whole, or whose calls rules 1 to 3 put in no order.
fn ordered(log: &[u8]) -> Result<(), Rule>
    ensures refused { IfErr result (λ rule. (rule_number rule ≡ (judge_of log.now).number) × (unordered (judge_of log.now).number ≡ true)) }
    ensures kept { OnOk result (unordered (judge_of log.now).number ≡ false) }
{
    match judge::judge(log) {
        Ok(()) => Ok(()),
        Err(fault) => match fault.rule {
            Rule::Contents | Rule::Causes | Rule::Full => Ok(()),
            rule => Err(rule),
        },
    }
}

// The node of every call is put above the bottom; only a push then moves the bottom over it.
fn replayed(log: &[u8], queue: u8, keys: &[usize], row: &mut [u16; 256]) -> usize
    requires few { entry_count_of log.now ≤ 256 }
    requires ordered { Ordered (entry_at log.now) (entry_count_of log.now) keys.now (length keys.now) }
    ensures { LiesIn (entry_at log.now) (entry_count_of log.now) queue row.new (lo_of result) (hi_of result) }
{
    let mut ends = 0;
    for key in keys {
        let e = call_log::entry_at(log, key % 256);
        if e.queue != queue {
            continue;
        }
        row[ends / UPPER] = e.node;
        ends = fields::moved(ends as u32, e); // it fits, for at most 256 are pushed
    }
    ends
}

// How many nodes a log leaves in a queue, and them, top first, and 0 after them; of any bytes. The judge's refusal where the calls have no order.
pub fn left(log: &[u8], queue: u8, nodes: &mut [u16; 256]) -> Result<u16, Rule>
    ensures { Leaves log.now queue (refusal_in result) (count_in result) nodes.new }
{
    *nodes = [0; 256];
    ordered(log)?;
    let mut keys = [0; 256];
    let calls = judge::in_order(log, &mut keys);
    let mut row = [0; 256];
    let ends = replayed(log, queue, &keys[..calls], &mut row);
    let lo = ends % UPPER;
    let hi = ends / UPPER;
    base::put(nodes, 0, &row[lo..hi]);
    let count = hi - lo;
    Ok(count as u16) // at most 256
}
