// The reader of run files: a file is refused, or good. What its bytes say is defined in crate runfile.
#![tactic(auto)]

ghost use Rattle.runfile.specs.File.{Reads};

mod calls; // section 3's calls: the first that is wrong
mod sections; // what refuses a section, and a file

pub use runfile::{MOST_PROCESSES, MOST_SIZE};
use runfile::{Refusal, Shape, shape_in};

// Section 1's count, which the log's format has too (crate call_log) and may have otherwise, and the most that W, a script length and the schedule's
// length may be; for C and P, crate runfile has it.
pub const SECTION_COUNT: u8 = 2;

pub const MOST_WIDTH: u8 = 16;

pub const LONGEST_SCRIPT: u8 = 32;

pub const LONGEST_SCHEDULE: u16 = 4096;

// What a file says, for every slice of bytes.
pub fn read(file: &[u8]) -> Result<Shape, Refusal>
    ensures { Reads file.now result }
{
    sections::check(file)?;
    Ok(shape_in(file))
}
