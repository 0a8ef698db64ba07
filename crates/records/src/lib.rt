// What the bench keeps of a run: the record of a process, before and after its step, where slots lie, and what a refused file gives.
#![tactic(auto)]

mod refusal; // what a refused file gives
mod slots; // where the slots of a queue lie
mod turn; // a process before and after its step

pub use crate::refusal::refuse;
pub use crate::slots::slots_place;
pub use crate::turn::is_take;
use runfile::{Call, MOST_PROCESSES, MOST_SIZE};
use word::Stage;

// C is at most this. A constant cannot call usize::from, so these are casts.
const MOST_SLOTS: usize = MOST_SIZE as usize;

const MOST_QUEUES: usize = MOST_PROCESSES as usize;

// The slots of all queues lie in one row, queue by queue: slot i of queue q at C × q + i.
pub const ALL_SLOTS: usize = MOST_QUEUES * MOST_SLOTS;

// The table has a row of bottom, top, tag and as many slots as C may be for each queue.
pub const TABLE_ROW: usize = 3 + MOST_SLOTS;

pub const TABLE_SIZE: usize = MOST_QUEUES * TABLE_ROW;

// A process: where it stands in its call, the call, which call of the file is its next and where its script stops; and of the
// call its start, its step B2, and the resets that its queue had at T1.
#[derive(Clone, Copy)]
pub struct Process {
    pub stage: Stage,
    pub call: Call,
    pub next: u16,
    pub stop: u16,
    pub start: u16,
    pub b2: u16,
    pub resets_at_t1: u16,
}
