// What a step of the queue gives, on three numbers and with top and tag in one word, and the age that a reset leaves. The rows are in crate queue.
#![tactic(auto)]

mod age; // top and tag in one word
mod shown; // what follows a step, as it is printed
mod tag; // the next tag, which goes round

use word::{Stage, Word};

// What follows a step: the next stage, or the result of the call. Lost: NIL at T4, where the race was lost.
#[derive(Clone, Copy)]
pub enum Next {
    Going(Stage),
    Done,
    Node(u16),
    Nil,
    Lost,
    Full,
}

// A store in a slot: the slot, and the node.
#[derive(Clone, Copy)]
pub struct Store {
    pub at: u16,
    pub node: u16,
}

// Top and tag in one word, as the box has them: tag × 65,536 + top.
#[derive(Clone, Copy, PartialEq, Eq)]
pub struct PackedAge {
    pub word: u32,
}

// The control word as the box has it.
#[derive(Clone, Copy)]
pub struct PackedWord {
    pub bottom: u16,
    pub age: PackedAge,
}

// A step on a word of type W: the word that it leaves, its store if it makes one, whether it is a reset, and what follows.
#[derive(Clone, Copy)]
pub struct Step<W> {
    pub word: W,
    pub store: Option<Store>,
    pub reset: bool,
    pub next: Next,
}

// A step on the three numbers.
pub type Stepped = Step<Word>;

// A step on the word of the box.
pub type PackedStep = Step<PackedWord>;
