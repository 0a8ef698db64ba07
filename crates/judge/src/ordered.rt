// The calls of any log by rising moment, for who goes through them outside the judge: the keys, where the log is whole and keeps rule 3.
ghost use Rattle.judge.specs.Inner.Orders.{Orders};

use crate::entries_of;
use crate::order::by_moment;

// Puts the keys of a log in front, and 0 after them; gives how many there are, and none where the log's calls have no order.
// The public promise `Orders` speaks of the count and of 0 for a log without an order, so that it is no `Option`.
pub fn in_order(log: &[u8], keys: &mut [usize; 256]) -> usize
    ensures { Orders log.now result keys.new }
{
    *keys = [0; 256];
    let n = base::number_at(log, 3);
    // `&` and not `&&`: one test, as `has_order` has it.
    if !((usize::from(n) <= call_log::MOST_ENTRIES) & (log.len() == call_log::length_of(n))) {
        return 0;
    }
    match by_moment(entries_of(log), keys) {
        Ok(sorted) => {
            keys[sorted.count..].fill(0);
            sorted.count
        }
        Err(_) => {
            *keys = [0; 256];
            0
        }
    }
}
