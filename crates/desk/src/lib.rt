// The desk: one queue stepped by hand, one access a call, its control word altered where it stands.
#![tactic(auto)]

ghost use Rattle.steps.specs.Step.{StepOn};
ghost use Rattle.desk.specs.Desk.{AtDesk};

use steps::{Next, PackedWord, Stepped};
use word::{Sizes, Stage, Word};

// The desk after a step by value: the word, and what follows the table's step, the next stage or the result of the call; or a refusal, where
// nothing was done and the stage is given back as lent.
#[derive(Clone, Copy)]
pub struct Desk {
    pub word: Word,
    pub answer: Result<Next, Stage>,
}

// The table's step on a word of three numbers: packed, stepped and unpacked.
fn step_on(sizes: Sizes, word: Word, slots: &mut [u16], stage: Stage) -> Stepped
    ensures { StepOn sizes.width sizes.size word slots.old stage result slots.new }
{
    let stepped = queue::step_packed(sizes, PackedWord::from(word), slots, stage);
    Stepped::from(stepped)
}

// The table's step for one stage where it is in range, or a refusal, with the word given back instead of altered.
pub fn step_by_value(sizes: Sizes, word: Word, slots: &mut [u16], stage: Stage) -> Desk
    ensures { AtDesk sizes.width sizes.size word slots.old stage result.answer result.word slots.new }
{
    if !range::in_range(sizes, slots.len(), word, stage) {
        return Desk {
            word,
            answer: Err(stage),
        };
    }
    let stepped = step_on(sizes, word, slots, stage);
    Desk {
        word: stepped.word,
        answer: Ok(stepped.next),
    }
}

// The same with the word lent: it is altered where it stands. Both stay: docs/DECISIONS.md names this form, thin over the step by value.
pub fn step(sizes: Sizes, word: &mut Word, slots: &mut [u16], stage: Stage) -> Result<Next, Stage>
    ensures { AtDesk sizes.width sizes.size word.old slots.old stage result word.new slots.new }
{
    let desk = step_by_value(sizes, *word, slots, stage);
    *word = desk.word;
    desk.answer
}
