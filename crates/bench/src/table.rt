// The final table: for each of eight queues bottom, top, tag and 64 slots.
ghost use Rattle.std.specs.Prelude.{◌≡◌, ◌+◌, ◌≤◌, length};
ghost use Rattle.base.specs.Bytes.{put_at};
ghost use Rattle.base.specs.Lists.{list_of};
ghost use Rattle.bench.specs.Inner.Layout.{slots_in, words_table};
ghost use Rattle.runs.specs.Run.{table_row, table_size};

use crate::Queue;
use records::{ALL_SLOTS, TABLE_ROW, TABLE_SIZE, slots_place};
use word::Word;

// Puts a queue's row into the table: bottom, top, tag and its slots.
fn put_row(table: &mut [u16], from: usize, word: Word, part: &[u16])
    requires { from + length (table_row word part.now) ≤ length table.old }
    ensures { table.new ≡ put_at from (table_row word part.now) table.old }
{
    table[from] = word.bottom;
    table[from + 1] = word.top;
    table[from + 2] = word.tag;
    base::put(table, from + 3, part);
}

// The rest of the table is 0: the slots at and above C, and the queues that no process owns. By index: of a slice that was written by
// `chunks_exact_mut` a proof knows the length and no element, and the clause is of the elements.
pub(crate) fn fill(
    table: &mut [u16; TABLE_SIZE],
    processes: u8,
    size: u8,
    queues: [Queue; 8],
    slots: &[u16; ALL_SLOTS],
)
    requires { (size ≤ 64) × (processes ≤ 8) }
    ensures { table.new ≡ list_of table_size (words_table processes queues (slots_in size slots.now)) }
{
    *table = [0; TABLE_SIZE];
    for q in 0..processes {
        let on = usize::from(q);
        let from = slots_place(size, q);
        let part = &slots[from..from + usize::from(size)];
        put_row(table, TABLE_ROW * on, queues[on].word.into(), part);
    }
}
