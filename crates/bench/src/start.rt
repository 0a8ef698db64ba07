// The start of a run: eight fresh queues, and each process with its share of the calls.
ghost use Rattle.std.specs.Prelude.{◌≡◌, ◌≤◌, get_or};
ghost use Rattle.runfile.specs.File.{first_lengths};
ghost use Rattle.records.specs.Inner.Records.{process_in};
ghost use Rattle.bench.specs.Inner.Layout.{bench_in, Whole};
ghost use Rattle.runs.specs.State.{waiting as waiting_of, start_bench};

use crate::{Bench, Queue};
use records::Process;
use runfile::Call;
use steps::{PackedAge, PackedWord};
use word::Stage;

// How many calls process p has; from P on, none.
fn share(file: &[u8], processes: u8, p: u8) -> u16
    ensures { (result ≡ get_or (first_lengths file.now processes) p 0) × (result ≤ 255) }
{
    if p < processes {
        u16::from(runfile::length_at(file, p))
    } else {
        0
    }
}

// A process before its first call, with the calls of its script. It is in no call yet, and Push(0) stands there: definition `waiting` of
// runs/specs/State.antt holds it, and `nobody` with it.
fn waiting(next: u16, stop: u16) -> Process
    ensures { process_in result ≡ waiting_of next stop }
{
    Process {
        stage: Stage::Idle,
        call: Call::Push(0),
        next,
        stop,
        start: 0,
        b2: 0,
        resets_at_t1: 0,
    }
}

// The calls of each process begin where those of the process before it stop.
pub(crate) fn start(file: &[u8], processes: u8) -> Bench
    ensures { (bench_in result ≡ start_bench (first_lengths file.now processes)) × (result.entries ≡ 0) × Whole result }
{
    let mut all = [waiting(0, 0); 8];
    let mut next: u16 = 0;
    // by index: of an array written by `iter_mut` a proof would know no element
    for p in 0..8u8 {
        let stop = next + share(file, processes, p);
        all[usize::from(p)] = waiting(next, stop);
        next = stop;
    }
    let age = PackedAge { word: 0 };
    let word = PackedWord { bottom: 0, age };
    Bench {
        queues: [Queue { word, resets: 0 }; 8],
        processes: all,
        entries: 0,
        steps: 0,
        gone: 0,
    }
}
