// Where the bytes stand. But for W and C nothing here looks at section 1: a file whose section 1 has one byte more is read by
// these functions, and those of reader for the other sections, as the slice without its first byte.
ghost use Rattle.std.specs.Prelude.{◌≡◌, ◌<◌};
ghost use Rattle.runfile.specs.File.{share_place, length_at, calls_before, call_place, step_place, calls_in, steps_in};
ghost use Rattle.runfile.specs.Inner.Counts.{shape_in};

use crate::Shape;
use base::{byte_at, number_at};

// Where W, C and P stand.
pub const WIDTH_PLACE: usize = 1;

pub const SIZE_PLACE: usize = 2;

pub const PROCESSES_PLACE: usize = 3;

impl Shape {
    // Where the bytes of the schedule begin, and where they end.
    pub fn schedule_place(self) -> usize
        ensures { (result ≡ step_place self.processes self.calls 0) × (result < 1000000) }
    {
        call_place(self.processes, self.calls) + 2
    }

    pub fn schedule_end(self) -> usize
        ensures { (result ≡ step_place self.processes self.calls self.steps) × (result < 1100000) }
    {
        self.schedule_place() + usize::from(self.steps)
    }
}

// Where the script length of process p stands; that of process P would stand where section 3 begins.
pub fn share_place(p: u8) -> usize
    ensures { (result ≡ share_place p) × (result < 1000) }
{
    4 + usize::from(p)
}

// The script length of process p.
pub fn length_at(file: &[u8], p: u8) -> u8
    ensures { result ≡ length_at file.now p }
{
    byte_at(file, share_place(p))
}

// How many calls stand before those of process p: the sum of the script lengths below p. A byte past the end reads as 0, so that no slice of the file
// has them all.
pub fn calls_before(file: &[u8], p: u8) -> u16
    ensures { result ≡ calls_before file.now p }
{
    let mut calls: u16 = 0;
    for i in 0..p {
        calls += u16::from(length_at(file, i));
    }
    calls
}

// Where call k begins.
pub fn call_place(processes: u8, k: u16) -> usize
    ensures { (result ≡ call_place processes k) × (result < 900000) }
{
    6 + usize::from(processes) + 3 * usize::from(k)
}

// The number of calls, and below it the length of the schedule, as the file gives them.
fn calls_in(file: &[u8]) -> u16
    ensures { result ≡ calls_in file.now }
{
    let processes = byte_at(file, PROCESSES_PLACE);
    number_at(file, share_place(processes))
}

fn steps_in(file: &[u8]) -> u16
    ensures { result ≡ steps_in file.now }
{
    let processes = byte_at(file, PROCESSES_PLACE);
    let calls = calls_in(file);
    let at = call_place(processes, calls);
    number_at(file, at)
}

// All counts, as the file gives them.
pub fn shape_in(file: &[u8]) -> Shape
    ensures { result ≡ shape_in file.now }
{
    Shape {
        width: byte_at(file, WIDTH_PLACE),
        size: byte_at(file, SIZE_PLACE),
        processes: byte_at(file, PROCESSES_PLACE),
        calls: calls_in(file),
        steps: steps_in(file),
    }
}
