// The run file of document 01: what its bytes say, read in place. What refuses a file is tested in crate reader.
#![tactic(auto)]

ghost use Rattle.std.specs.Prelude.{◌≡◌};
ghost use Rattle.runfile.specs.Refusals.{refusal_number};

mod calls; // section 3's calls, each by its code and argument
mod places; // where the bytes stand

pub use crate::calls::{call_at, call_of, coded_at};
pub use crate::places::{
    PROCESSES_PLACE, SIZE_PLACE, WIDTH_PLACE, call_place, calls_before, length_at, shape_in,
    share_place,
};

// The most that C and P may be.
pub const MOST_SIZE: u8 = 64;

pub const MOST_PROCESSES: u8 = 8;

// A call of a script.
#[derive(Clone, Copy)]
pub enum Call {
    Push(u16),
    Pop,
    Take(u8),
}

// What refuses a file.
#[derive(Clone, Copy, PartialEq, Eq)]
pub enum Refusal {
    CutShort,
    WrongSizes,
    WrongScripts,
    WrongCall,
    WrongNode,
    WrongSchedule,
    BytesAfter,
    NoRoom,
}

// The number of document 01.
impl From<Refusal> for u8 {
    ghost from_gives = { λ why number. number ≡ refusal_number why };

    fn from(why: Refusal) -> u8 {
        match why {
            Refusal::CutShort => 1,
            Refusal::WrongSizes => 2,
            Refusal::WrongScripts => 3,
            Refusal::WrongCall => 4,
            Refusal::WrongNode => 5,
            Refusal::WrongSchedule => 6,
            Refusal::BytesAfter => 7,
            Refusal::NoRoom => 8,
        }
    }
}

// What a file's sections count: W, C, P, the calls and the steps of the schedule.
#[derive(Clone, Copy)]
pub struct Shape {
    pub width: u8,
    pub size: u8,
    pub processes: u8,
    pub calls: u16,
    pub steps: u16,
}
