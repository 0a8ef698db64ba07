// The log: an entry for each finished call, the numbers that stand there for what a call did, and both as bytes.
#![tactic(auto)]

mod decode; // what stands in a log's bytes
mod encode; // a log's length; an entry and the head, written
mod numbers; // the methods of `What`, and what an entry's call did

pub use crate::decode::entry_at;
pub use crate::encode::{has_room, length_of, put_entry, put_head};

// A finished call, as its bytes have it: a log of any bytes is judged, so that kind and result may be any numbers, a node 0, and a moment NO_MOMENT.
#[derive(Clone, Copy, Default)]
pub struct Entry {
    pub process: u8,
    pub queue: u8,
    pub kind: u8,
    pub result: u8,
    pub node: u16,
    pub start: u16,
    pub end: u16,
    pub moment: u16,
}

// What a finished call did. Kind, result, and whether there is a moment, all follow from it.
#[derive(Clone, Copy)]
pub enum What {
    Pushed,
    Full,
    BottomNode,
    BottomNil,
    TopNode,
    TopNil,
    TopLost,
}

// Kinds.
pub const PUSH: u8 = 1;

pub const BOTTOM_POP: u8 = 2;

pub const TOP_POP: u8 = 3;

// Results; DONE is also that of a pop with a node, and LOST that of a top pop with NIL at T4.
pub const NIL: u8 = 0;

pub const DONE: u8 = 1;

pub const FULL: u8 = 2;

pub const LOST: u8 = 3;

// Stands where there is no moment.
pub const NO_MOMENT: u16 = 65535;

// Section 1's count, which stands first in every log.
pub const SECTION_COUNT: u8 = 2;

// The bytes before the entries, and the bytes of an entry.
pub const HEAD_LENGTH: usize = 5;

pub const ENTRY_LENGTH: usize = 12;

// The most entries of a log, and its length then.
pub const MOST_ENTRIES: usize = 256;

pub const LONGEST_LOG: usize = HEAD_LENGTH + ENTRY_LENGTH * MOST_ENTRIES;
