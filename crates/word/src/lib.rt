// The control word of one queue, and the stages of a process.
#![tactic(auto)]

mod shown; // a stage as it is typed
pub mod stages; // where a stage stands

// The control word of one queue: bottom, and the age of top and tag.
#[derive(Clone, Copy)]
pub struct Word {
    pub bottom: u16,
    pub top: u16,
    pub tag: u16,
}

// What a queue is made for: W, the tag's width in bits, and C, the number of its slots.
#[derive(Clone, Copy)]
pub struct Sizes {
    pub width: u8,
    pub size: u8,
}

// A process is idle or at one of fourteen stages, with the numbers that it has loaded so far. The age (t, g) stays two numbers, as the table
// (`row_of`) and what is shown of it (`every_step` of theorems) name them.
#[derive(Clone, Copy)]
pub enum Stage {
    Idle,
    P1 { node: u16 },
    P2 { node: u16, b: u16 },
    P3 { b: u16 },
    T1,
    T2 { t: u16, g: u16 },
    T3 { t: u16, g: u16, b: u16 },
    T4 { t: u16, g: u16, b: u16, x: u16 },
    B1,
    B2 { b: u16 },
    B3 { b: u16 },
    B4 { b: u16, x: u16 },
    B5 { b: u16, x: u16, t: u16, g: u16 },
    B6 { b: u16, x: u16, t: u16, g: u16 },
    B7 { b: u16, x: u16, t: u16, g: u16 },
}
