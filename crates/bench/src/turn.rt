// One step of a run, through the step of the queue.
ghost use Rattle.std.specs.Prelude.{◌≡◌, ◌≤◌, ◌<◌};
ghost use Rattle.records.specs.Inner.Records.{process_in};
ghost use Rattle.bench.specs.Inner.Layout.{ended_in, put_entries, StepsIn, Tells};
ghost use Rattle.runs.specs.Turn.{entries_in};

use crate::Queue;
use call_log::Entry;
use records::{ALL_SLOTS, Process, slots_place};
use runfile::Shape;
use steps::{PackedStep, PackedWord};
use word::Sizes;

// The step of a queue on its part of the row of slots. A shape has W and C apart, as definition `shape_of` of runfile has it.
pub(crate) fn step_slots(
    shape: Shape,
    word: PackedWord,
    slots: &mut [u16; ALL_SLOTS],
    q: u8,
    of: Process,
) -> PackedStep
    requires { (q < 8) × (shape.size ≤ 64) }
    ensures { StepsIn shape.width shape.size word slots.old q of.stage result slots.new }
{
    let from = slots_place(shape.size, q);
    let to = from + usize::from(shape.size);
    let sizes = Sizes {
        width: shape.width,
        size: shape.size,
    };
    queue::step_packed(sizes, word, &mut slots[from..to], of.stage)
}

// Puts what a step ended after the n entries of the log.
fn keep(log: &mut [u8], n: u16, over: Option<Entry>)
    ensures { log.new ≡ put_entries n (entries_in (ended_in over)) log.old }
{
    if let Some(entry) = over {
        call_log::put_entry(log, call_log::length_of(n), entry);
    }
}

// What step n of process p finds: the records of the process and of its queue's owner, and the queue.
#[derive(Clone, Copy)]
pub(crate) struct Turn {
    pub p: u8,
    pub n: u16,
    pub of: Process,
    pub owner: Process,
    pub queue: Queue,
    ghost few: { (n ≤ 8191) × (of.b2 ≤ 8191) × (owner.b2 ≤ 8191) × (queue.resets ≤ 8191) },
}

// What the end of a call adds to the counts, and the resets of its queue after it.
#[derive(Clone, Copy)]
pub(crate) struct Told {
    pub more: u16,
    pub gone: u16,
    pub resets: u16,
}

impl Turn {
    // Logs what the step ended, after so many entries.
    pub(crate) fn tell(self, log: &mut [u8], entries: u16, stepped: PackedStep) -> Told
        ensures { Tells self.p self.n entries (process_in self.of) (process_in self.owner) self.queue.word self.queue.resets stepped log.old result log.new }
    {
        let over = self.ended(stepped.next);
        keep(log, entries, over);
        Told {
            more: u16::from(over.is_some()),
            gone: self.of.gone_round(self.queue.resets, stepped.next),
            resets: if stepped.reset {
                self.queue.resets + 1
            } else {
                self.queue.resets
            },
        }
    }
}
