// The step of the queue: document 01's table, one shared access with the local work after it, by value.
// It knows nothing of how slots lie, of processes or of runs.
#![tactic(auto)]

ghost use Rattle.std.specs.Prelude.{◌≡◌};
ghost use Rattle.steps.specs.Step.{loaded_slot, loaded, stored};
ghost use Rattle.steps.specs.Packed.{StepPacked};

mod rows; // the rows of the table

use steps::{PackedStep, PackedWord, Store};
use word::stages::below;
use word::{Sizes, Stage};

// The slot that a stage loads; only T3 and B3 load one.
fn loaded_slot(stage: Stage) -> Option<u16>
    ensures { result ≡ loaded_slot stage }
{
    match stage {
        Stage::T3 { t, .. } => Some(t),
        Stage::B3 { b } => Some(below(b)),
        _ => None,
    }
}

// What the slot holds; 0 where no slot is loaded, or there is no such slot.
fn load_from(slots: &[u16], from: Option<u16>) -> u16
    ensures { result ≡ loaded slots.now from }
{
    from.and_then(|at| slots.get(usize::from(at)).copied())
        .unwrap_or(0)
}

fn store_in(slots: &mut [u16], made: Option<Store>)
    ensures { slots.new ≡ stored slots.old made }
{
    // By index: a slice's `get_mut` promises nothing of what the slice holds after it, and `base::put` took 2 % more instructions of a full run.
    if let Some(Store { at, node }) = made {
        let at = usize::from(at);
        if at < slots.len() {
            slots[at] = node;
        }
    }
}

// The step of a stage on its queue's slots: the slot that the stage touches is loaded or stored, and no other.
pub fn step_packed(sizes: Sizes, word: PackedWord, slots: &mut [u16], stage: Stage) -> PackedStep
    ensures { StepPacked sizes.width sizes.size word slots.old stage result slots.new }
{
    let loaded = load_from(slots, loaded_slot(stage));
    let stepped = rows::row(sizes, word, loaded, stage);
    store_in(slots, stepped.store);
    stepped
}
