// The bench, the rack, the judge and what is left, for a host program in C: include/scarpgoblet.h says what a host may count on.
#![tactic(auto)]

ghost use Rattle.std.specs.Prelude.{◌≡◌, get_or};
ghost use Rattle.runs.specs.Promise.{Ran};
ghost use Rattle.racks.specs.Rack.{Racked};
ghost use Rattle.rules.specs.Judge.{judge_of};
ghost use Rattle.rules.specs.Left.{Leaves};

// Runs a file, and gives the number of bytes of the log that it wrote at the front of the host's buffer.
#[unsafe(no_mangle)]
pub extern "C" fn scarpgoblet_run(
    file: &[u8],
    log: &mut [u8],
    report: &mut [u16; 4],
    table: &mut [u16; bench::TABLE_SIZE],
) -> usize
    ensures { Ran file.now log.old result log.new report.new table.new }
{
    bench::run_len(file, log, report, table)
}

// Runs and judges every file of a rack, and gives 0, 21 or 22.
#[unsafe(no_mangle)]
pub extern "C" fn scarpgoblet_rack(files: &[u8], log: &mut [u8], replies: &mut [u8]) -> u32
    ensures { Racked files.now log.old replies.old result log.new replies.new }
{
    match rack::rack(files, log, replies) {
        Ok(()) => 0,
        Err(refusal) => u32::from(u8::from(refusal)),
    }
}

// The judge's number.
#[unsafe(no_mangle)]
pub extern "C" fn scarpgoblet_judge(log: &[u8]) -> u32
    ensures { result ≡ (judge_of log.now).number }
{
    let (number, _) = rules::numbers(judge::judge(log));
    u32::from(number)
}

// The entry at fault, from 0.
#[unsafe(no_mangle)]
pub extern "C" fn scarpgoblet_judge_entry(log: &[u8]) -> u32
    ensures { result ≡ (judge_of log.now).entry }
{
    let (_, entry) = rules::numbers(judge::judge(log));
    u32::from(entry)
}

// The nodes that a log leaves in a queue, top first, and 0 after them; gives 0, or the judge's number where the log's calls have no order.
#[unsafe(no_mangle)]
pub extern "C" fn scarpgoblet_left(
    log: &[u8],
    queue: u8,
    count: &mut [u16; 1],
    nodes: &mut [u16; 256],
) -> u32
    ensures { Leaves log.now queue result (get_or count.new 0 0) nodes.new }
{
    match leaves::left(log, queue, nodes) {
        Ok(left) => {
            *count = [left];
            0
        }
        Err(rule) => {
            *count = [0];
            u32::from(u8::from(rule))
        }
    }
}
