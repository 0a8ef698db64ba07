// The bench: runs a file of scripts under its schedule, one shared access at a time.
#![tactic(auto)]

ghost use Rattle.std.specs.Prelude.{◌≡◌, length, replicate};
ghost use Rattle.runfile.specs.File.{record_in, file_of, reading_of};
ghost use Rattle.runs.specs.Run.{closed};
ghost use Rattle.runs.specs.Promise.{Ran, HandsBack};
ghost use Rattle.bench.specs.Inner.Layout.{all_slots, Becomes};
ghost use Rattle.bench.specs.Inner.Finish.{Ends, Finishes};

mod moment; // what a step ends, and its moment
mod start; // eight fresh queues, and each process with its share of the calls
mod loops; // the schedule and the closing
mod table; // the final table
mod turn; // one step of a run, through the step of the queue

pub use records::TABLE_SIZE;
use records::{ALL_SLOTS, Process, refuse};
use runfile::{Refusal, Shape};
use steps::PackedWord;

// The rounds of the closing at most: eight calls are half-done.
const CLOSING_ROUNDS: u8 = 8;

// A queue: its word, and how often it was reset.
#[derive(Clone, Copy)]
pub struct Queue {
    pub word: PackedWord,
    pub resets: u16,
}

// The state of a run, but for the slots, which lie in an array of their own, and the log, which lies in the buffer.
#[derive(Clone, Copy)]
pub struct Bench {
    pub queues: [Queue; 8],
    pub processes: [Process; 8],
    pub entries: u16,
    pub steps: u16,
    pub gone: u16,
}

// Writes the head of the log before the entries in the buffer, the counts and the table.
fn finish(
    shape: Shape,
    state: Bench,
    slots: &[u16; ALL_SLOTS],
    buffer: &mut [u8],
    report: &mut [u16; 4],
    table: &mut [u16; TABLE_SIZE],
) -> usize
    requires { Ends shape state slots.now }
    ensures { Finishes shape.processes shape.size state slots.now buffer.old result buffer.new report.new table.new }
{
    call_log::put_head(buffer, shape.processes, shape.size, state.entries);
    *report = [0, state.entries, state.steps, state.gone];
    table::fill(table, shape.processes, shape.size, state.queues, slots);
    call_log::length_of(state.entries)
}

// The steps of a good file, of its schedule and then of the closing, from eight fresh queues.
fn steps(file: &[u8], shape: Shape, slots: &mut [u16; ALL_SLOTS], log: &mut [u8]) -> Bench
    requires { (reading_of (file_of file.now) ≡ Ok shape) × (slots.old ≡ replicate all_slots 0) }
    ensures { Becomes shape.size 0 log.old (closed (record_in file.now)) result slots.new log.new }
{
    let started = start::start(file, shape.processes);
    let from = shape.schedule_place();
    let to = shape.schedule_end();
    let played = loops::walk(file, shape, &file[from..to], started, false, slots, log);
    loops::close(file, shape, played, slots, log)
}

// The run of a good file. Nothing is refused after its first step, so that the entries are written straight into the buffer.
fn run_good(
    file: &[u8],
    shape: Shape,
    buffer: &mut [u8],
    report: &mut [u16; 4],
    table: &mut [u16; TABLE_SIZE],
) -> usize
    requires { reading_of (file_of file.now) ≡ Ok shape }
    ensures { Ran file.now buffer.old result buffer.new report.new table.new }
{
    if !call_log::has_room(buffer, shape.calls) {
        return refuse(u8::from(Refusal::NoRoom), report, table);
    }
    let mut slots = [0u16; ALL_SLOTS];
    let closed = steps(file, shape, &mut slots, buffer);
    finish(shape, closed, &slots, buffer, report, table)
}

// Runs a file. Gives the number of bytes of the log that it wrote at the front of the buffer, and lends back number, entries, steps and
// gone-round takes, and the final table. This is the function that promises every byte of the buffer. Report and table are arrays of numbers, and a
// refusal is a number in them, for the C interface (include/scarpgoblet.h): `Ran` is its promise.
pub fn run_len(
    file: &[u8],
    buffer: &mut [u8],
    report: &mut [u16; 4],
    table: &mut [u16; TABLE_SIZE],
) -> usize
    ensures { Ran file.now buffer.old result buffer.new report.new table.new }
{
    match reader::read(file) {
        Ok(shape) => run_good(file, shape, buffer, report, table),
        Err(why) => refuse(u8::from(why), report, table),
    }
}

// The same, and hands back the written front part of the buffer itself.
pub fn run<'a>(
    file: &[u8],
    buffer: &'a mut [u8],
    report: &mut [u16; 4],
    table: &mut [u16; TABLE_SIZE],
) -> &'a mut [u8]
    ensures hands_back { HandsBack file.now (length buffer.old) result.now report.new table.new }
    ensures front { result.ref_ptr ≡ buffer.entry.ref_ptr }
{
    let written = run_len(file, buffer, report, table);
    &mut buffer[..written]
}
