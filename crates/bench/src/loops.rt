// The loop of a run, over the schedule and for the closing.
ghost use Rattle.std.specs.Prelude.{◌≡◌};
ghost use Rattle.base.specs.Lists.{list_of};
ghost use Rattle.runs.specs.Run.{close as close_of, closing_steps};
ghost use Rattle.runs.specs.Inner.Half.{half_done};
ghost use Rattle.bench.specs.Inner.Layout.{process_at_in, state_in, Becomes, ToWalk, ToClose};
ghost use Rattle.records.specs.Inner.Records.{process_in};
ghost use Rattle.bench.specs.Inner.Walk.{rests as rests_of, walked_from};

use crate::turn::{Turn, step_slots};
use crate::{Bench, CLOSING_ROUNDS};
use records::{ALL_SLOTS, Process};
use runfile::Shape;

// Whether a process is in no call and begins none. It is told of the record where it stands: most steps of a schedule may be such, and to take all of
// the record apart for each costs half as much again.
fn rests(of: &Process, closing: bool) -> bool
    ensures { result ≡ rests_of closing (process_in of.now) }
{
    of.is_idle() && (closing || of.stop <= of.next)
}

// A schedule, step by step, and the closing: one function, so that there is one place that steps. In the closing a process that is in no call is
// passed over, and begins none. Once the log has every call of the file no process has one left, so the rest of the schedule is counted. The bench is
// altered where it stands: handing all of it to a step and back would cost more than the step. File and shape are no struct: `ready`, which is
// public (docs/PROMISES.md), takes both apart, and `ToWalk` and `ToClose` are of a shape and of no file.
pub(crate) fn walk(
    file: &[u8],
    shape: Shape,
    schedule: &[u8],
    state: Bench,
    closing: bool,
    slots: &mut [u16; ALL_SLOTS],
    log: &mut [u8],
) -> Bench
    requires { ToWalk shape schedule.now state slots.old }
    ensures { Becomes shape.size state.entries log.old (walked_from closing file.now shape schedule.now state slots.old) result slots.new log.new }
{
    let mut run = state;
    let idle: u16 = if closing { 0 } else { 1 };
    for (i, &p) in schedule.iter().enumerate() {
        if shape.calls <= run.entries {
            let left = if closing { 0 } else { schedule.len() - i };
            run.steps += left as u16; // at most 4,096
            return run;
        }
        let (at, n) = (usize::from(p), run.steps);
        if rests(&run.processes[at], closing) {
            run.steps = n + idle;
            continue;
        }
        let of = run.processes[at].ready(file, shape, closing, n);
        run.steps = n + 1;
        let q = of.queue_of(p);
        let on = usize::from(q);
        let queue = run.queues[on];
        let stepped = step_slots(shape, queue.word, slots, q, of);
        run.queues[on].word = stepped.word;
        let then = of.after(n, queue.resets, stepped);
        if !then.is_idle() {
            run.processes[at] = then;
            continue;
        }
        let turn = Turn {
            p,
            n,
            of,
            owner: run.processes[on],
            queue,
        };
        let told = turn.tell(log, run.entries, stepped);
        run.processes[at] = then;
        run.queues[on].resets = told.resets;
        run.entries += told.more;
        run.gone += told.gone;
    }
    run
}

// The half-done processes, as a set of eight bits, from the highest on. By index: over `processes.iter().rev()` the invariant would be of the items
// yielded, reversed; tried, and `overflow_mul-set` and `returns` stayed open.
fn half_done(processes: &[Process; 8]) -> u8
    ensures { result ≡ half_done (list_of 8 (process_at_in processes.now)) }
{
    let mut set: u8 = 0;
    for i in (0..processes.len()).rev() {
        set = 2 * set + u8::from(!processes[i].is_idle());
    }
    set
}

// The closing: the trailing zeros of the set give the lowest process to be closed next, and zero means that the run is closed. Six steps end its call,
// and those that it does not need are passed over.
pub(crate) fn close(
    file: &[u8],
    shape: Shape,
    state: Bench,
    slots: &mut [u16; ALL_SLOTS],
    log: &mut [u8],
) -> Bench
    requires { ToClose shape state slots.old }
    ensures { Becomes shape.size state.entries log.old (close_of shape.width shape.size closing_steps (state_in shape.size state slots.old)) result slots.new log.new }
{
    let mut after = state;
    for _ in 0..CLOSING_ROUNDS {
        let set = half_done(&after.processes);
        if set == 0 {
            return after;
        }
        let lowest = set.trailing_zeros() as u8; // below 8
        after = walk(file, shape, &[lowest; 6], after, true, slots, log);
    }
    after
}
