// The queue that is stepped.
use std::fmt;
use steps::Next;
use word::{Sizes, Stage, Word};

// W and C, the control word, and the slots.
#[derive(Drop)]
pub(crate) struct Queue<'a> {
    sizes: Sizes,
    word: Word,
    slots: &'a mut [u16],
}

impl<'a> Queue<'a> {
    pub(crate) fn new(sizes: Sizes, slots: &'a mut [u16]) -> Queue<'a> {
        let word = Word {
            bottom: 0,
            top: 0,
            tag: 0,
        };
        Queue { sizes, word, slots }
    }

    // Does the step of a stage, or gives the stage back.
    pub(crate) fn step(&mut self, stage: Stage) -> Result<Next, Stage> {
        desk::step(self.sizes, &mut self.word, self.slots, stage)
    }
}

impl fmt::Display for Queue<'_> {
    // Bottom, top, tag, and the slots.
    fn fmt<W: fmt::Write>(&self, f: &mut fmt::Formatter<W>) -> fmt::Result {
        let Word { bottom, top, tag } = self.word;
        write!(f, "word {bottom} {top} {tag} slots")?;
        for slot in self.slots.iter() {
            write!(f, " {slot}")?;
        }
        Ok(())
    }
}
