// A process before and after its step: the call that it begins, its queue, and what the step leaves it.
ghost use Rattle.std.specs.Prelude.{◌≡◌, cond, ◌<◌, get_or};
ghost use Rattle.word.specs.Stages.{is_idle};
ghost use Rattle.steps.specs.Step.{stage_after};
ghost use Rattle.records.specs.Inner.Records.{process_in};
ghost use Rattle.runfile.specs.File.{first_calls};
ghost use Rattle.runs.specs.Moment.{queue_of, is_take, gone_round};
ghost use Rattle.runs.specs.Turn.{first_stage, begun as begun_of, ready as ready_of, process_after};

use crate::Process;
use runfile::{Call, Shape};
use steps::{Next, PackedStep};
use word::Stage;

pub fn is_take(call: Call) -> bool
    ensures { result ≡ is_take call }
{
    matches!(call, Call::Take(_))
}

fn first_stage(call: Call) -> Stage
    ensures { result ≡ first_stage call }
{
    match call {
        Call::Push(node) => Stage::P1 { node },
        Call::Pop => Stage::B1,
        Call::Take(_) => Stage::T1,
    }
}

fn stage_after(next: Next) -> Stage
    ensures { result ≡ stage_after next }
{
    match next {
        Next::Going(stage) => stage,
        _ => Stage::Idle,
    }
}

// Call k of a file. Past the last call of the file there is none to begin, and `first_calls` read there gives Pop (`get_or .. Call.Pop`, which `ready`
// of crate runs begins).
fn call_in(file: &[u8], shape: Shape, k: u16) -> Call
    ensures { result ≡ get_or (first_calls file.now shape.processes shape.calls) k Call.Pop }
{
    if k < shape.calls {
        runfile::call_at(file, shape.processes, k)
    } else {
        Call::Pop
    }
}

impl Process {
    pub fn is_idle(self) -> bool
        ensures { result ≡ is_idle self.stage }
    {
        self.stage.is_idle()
    }

    // The queue of the call that process p is in.
    pub fn queue_of(self, p: u8) -> u8
        ensures { result ≡ queue_of p self.call }
    {
        match self.call {
            Call::Push(_) | Call::Pop => p,
            Call::Take(q) => q,
        }
    }

    // A call starts at its first step.
    fn begun(self, n: u16, call: Call) -> Process
        requires { self.next < 65535 }
        ensures { process_in result ≡ begun_of n call (process_in self) }
    {
        Process {
            stage: first_stage(call),
            call,
            next: self.next + 1,
            start: n,
            ..self
        }
    }

    // An idle process with a call left begins it; none is begun in the closing.
    pub fn ready(self, file: &[u8], shape: Shape, closing: bool, n: u16) -> Process
        ensures { process_in result ≡ cond closing (process_in self) (ready_of (first_calls file.now shape.processes shape.calls) n (process_in self)) }
    {
        if self.is_idle() & (self.next < self.stop) & !closing {
            self.begun(n, call_in(file, shape, self.next))
        } else {
            self
        }
    }

    // A process after its step n, on a queue that had so many resets.
    pub fn after(self, n: u16, resets: u16, stepped: PackedStep) -> Process
        ensures { process_in result ≡ process_after n resets (process_in self) stepped.next }
    {
        Process {
            stage: stage_after(stepped.next),
            b2: if self.stage.at_b2() { n } else { self.b2 },
            resets_at_t1: if self.stage.at_t1() {
                resets
            } else {
                self.resets_at_t1
            },
            ..self
        }
    }

    // How many gone-round takes a step is: a successful T4 whose queue was reset since its T1.
    pub fn gone_round(self, resets: u16, next: Next) -> u16
        ensures { result ≡ gone_round (process_in self) resets next }
    {
        match next {
            Next::Node(_) => u16::from(is_take(self.call) & (self.resets_at_t1 != resets)),
            _ => 0,
        }
    }
}
