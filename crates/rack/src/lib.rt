// A rack of files: many run files in one call, each run and judged as it would be singly.
#![tactic(auto)]

ghost use Rattle.std.specs.Prelude.{◌≡◌, ◌%◌, get_or};
ghost use Rattle.base.specs.Bytes.{put_at};
ghost use Rattle.racks.specs.Rack.{judged as judged_of, rack_of, reply_bytes, Racked, number_of};
ghost use Rattle.racks.specs.Inner.Walk.{is_rack, RunsOne, Checked, RunsAll};

pub use racks::Refusal;

// A reply has number, three counts of two bytes, and the judge's number.
pub const REPLY_LENGTH: usize = 8;

// Whether the bytes are a rack: a walk over the lengths alone. The place is carried, for each length says where the next one stands.
fn is_rack(files: &[u8]) -> bool
    ensures { result ≡ is_rack (rack_of files.now) }
{
    if files.len() < 2 {
        return false;
    }
    let count = base::number_at(files, 0);
    let mut at = 2;
    for _ in 0..count {
        let end = 2 + usize::from(base::number_at(files, at));
        if files.len() - at < end {
            return false;
        }
        at += end;
    }
    at == files.len()
}

// The judge's number of a log, and 0 for a refused file, which has none.
fn judged(number: u16, log: &[u8]) -> u8
    ensures { result ≡ judged_of number log.now }
{
    if number == 0 {
        rules::numbers(judge::judge(log)).0
    } else {
        0
    }
}

// Puts a reply's eight bytes at a place: those of a run's report, and the judge's number.
fn put_reply(replies: &mut [u8], place: usize, report: [u16; 4], verdict: u8)
    ensures { replies.new ≡ put_at place
        (reply_bytes (get_or report 0 0 % 256) (get_or report 1 0) (get_or report 2 0) (get_or report 3 0) verdict) replies.old }
{
    let [number, entries, steps, gone] = report;
    let bytes = [
        base::low(number),
        base::high(entries),
        base::low(entries),
        base::high(steps),
        base::low(steps),
        base::high(gone),
        base::low(gone),
        verdict,
    ];
    base::put(replies, place, &bytes)
}

// Runs a file, judges its log, and puts its reply at a place.
fn one(file: &[u8], log: &mut [u8], replies: &mut [u8], place: usize)
    ensures { RunsOne file.now log.old replies.old place log.new replies.new }
{
    let mut report = [0u16; 4];
    let mut table = [0u16; bench::TABLE_SIZE];
    let written = bench::run_len(file, log, &mut report, &mut table);
    let number = report[0];
    let verdict = judged(number, &log[..written]);
    put_reply(replies, place, report, verdict)
}

// The files of a rack from the front: a second walk over the lengths, for no file is run before the bytes are known to be a rack. The places are carried:
// files have lengths of their own, and of replies written by `chunks_exact_mut` a proof would know no byte.
fn run_all(files: &[u8], log: &mut [u8], replies: &mut [u8])
    requires { Checked files.now replies.old }
    ensures { RunsAll files.now log.old replies.old log.new replies.new }
{
    let count = base::number_at(files, 0);
    let mut at = 2;
    let mut place = 0;
    for _ in 0..count {
        let length = usize::from(base::number_at(files, at));
        let from = at + 2;
        let end = from + length;
        one(&files[from..end], log, replies, place);
        at = end;
        place += REPLY_LENGTH;
    }
}

// Runs and judges every file of a rack. Both refusals are found before any file is run.
pub fn rack(files: &[u8], log: &mut [u8], replies: &mut [u8]) -> Result<(), Refusal>
    ensures { Racked files.now log.old replies.old (number_of result) log.new replies.new }
{
    if !is_rack(files) {
        return Err(Refusal::NoRack);
    }
    let count = usize::from(base::number_at(files, 0));
    if replies.len() < REPLY_LENGTH * count {
        return Err(Refusal::NoRoom);
    }
    run_all(files, log, replies);
    Ok(())
}
