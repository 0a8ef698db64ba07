// The desk: one queue stepped by hand, by the lines on standard input. Each line is answered before the next is read: after a step with the word, the
// slots, and the next stage or the result; a line that is not run with why. A write that fails is passed over.
#![tactic(auto)]

ghost use Rattle.std.specs.Prelude.{◌≤◌};

use arrayvec::ArrayVec;
use at_desk::Queue;
use std::io::Read;
use word::Sizes;

mod at_desk; // the queue that is stepped

// A right line is far shorter, unless it is filled with blanks or zeros.
const LINE_BYTES: usize = 256;

// As often as a loop goes round at most that nothing but the end of the input ends: a proved loop has to end, and nothing says that a line or the
// lines do.
const FOR_EVER: u64 = u64::MAX;

// A line without the line end.
type Line = ArrayVec<u8, LINE_BYTES>;

#[derive(Clone, Copy)]
struct TooLong;

// Reads a line and no byte of the next. The last line may lack the line end. There is none at the end, or where a read failed, of which
// `stdio::read` has said why: what was read of a line before it is no line.
fn read_line<R: Read>(rt: &impl Eprint, from: &mut R) -> Option<Result<Line, TooLong>> {
    let mut line = Line::new();
    for length in 0..FOR_EVER {
        let mut byte = [0u8; 1];
        let n = stdio::read(rt, from, &mut byte)?;
        if n == 0 && length == 0 {
            return None;
        }
        if n == 0 || byte == [b'\n'] {
            let fits = length <= LINE_BYTES as u64; // `u64` has no `From<usize>`
            return Some(if fits { Ok(line) } else { Err(TooLong) });
        }
        let _ = line.try_push(byte[0]); // of a line that is too long the rest is not kept
    }
    None
}

// The next line that is not too long.
fn next_line<R: Read>(rt: &(impl Print + Eprint), from: &mut R) -> Option<Line> {
    for _ in 0..FOR_EVER {
        if let Ok(line) = read_line(rt, from)? {
            return Some(line);
        }
        let _ = println!(rt; "not run: the line is longer than {LINE_BYTES} bytes");
    }
    None
}

// Answers a stage line.
fn answer(rt: &impl Print, queue: &mut Queue, line: &[u8]) {
    let _ = match lines::read_stage(line) {
        Ok(stage) => match queue.step(stage) {
            Ok(next) => println!(rt; "{queue} {next}"),
            Err(lent) => println!(rt; "{queue} refused 10 {lent}"),
        },
        Err(why) => println!(rt; "not run: {why}"),
    };
}

// Steps a queue of C slots, all 0 at first, a line at a time.
fn steps<R: Read>(rt: &(impl Print + Eprint), from: &mut R, sizes: Sizes)
    requires { sizes.size ≤ 64 }
{
    let mut slots = [0u16; 64];
    let mut queue = Queue::new(sizes, &mut slots[..usize::from(sizes.size)]);
    let _ = println!(rt; "{queue}");
    for _ in 0..FOR_EVER {
        let Some(line) = next_line(rt, from) else {
            break;
        };
        answer(rt, &mut queue, line.as_slice());
    }
}

// Takes the line of W and C, and after a right one all that follow.
fn desk<R: Read>(rt: &(impl Print + Eprint), from: &mut R) {
    for _ in 0..FOR_EVER {
        let Some(line) = next_line(rt, from) else {
            break;
        };
        match lines::read_sizes(line.as_slice()) {
            Ok(sizes) => return steps(rt, from, sizes),
            Err(why) => {
                let _ = println!(rt; "not run: {why}");
            }
        }
    }
}

// The desk until the end of standard input.
fn main(rt: HostRuntime) {
    desk(&rt, &mut rt.stdin());
}
