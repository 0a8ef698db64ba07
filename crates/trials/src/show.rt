// What a file or a log gives, on the line that its name began. A write that fails is passed over.
use runfile::Shape;

fn each(rt: &impl Print, bytes: &[u8]) {
    for byte in bytes {
        let _ = print!(rt; " {byte}");
    }
}

// What the judge says of a log.
pub(crate) fn judged(rt: &impl Print, log: &[u8]) {
    let (number, entry) = rules::numbers(judge::judge(log));
    let _ = print!(rt; " judge {number} entry {entry}");
}

// Runs a file with so many bytes of buffer for its log: the counts, the judge's number and entry, bottom, top, tag and first slot of queue 0, and the
// log's bytes.
pub(crate) fn run(rt: &impl Print, file: &[u8], room: u16) {
    let mut buffer = [0u8; call_log::LONGEST_LOG];
    let mut report = [0u16; 4];
    let mut table = [0u16; bench::TABLE_SIZE];
    let n = usize::from(room).min(buffer.len());
    let log = bench::run(file, &mut buffer[..n], &mut report, &mut table);
    // four numbers, the first of them why a file is refused: the C interface hands out the same, and `HandsBack` says so of `bench::run`
    let [refused, entries, steps, gone] = report;
    if refused != 0 {
        let _ = print!(rt; " refused {refused}");
        return;
    }
    let _ = print!(rt; " entries {entries} steps {steps} gone-round {gone}");
    judged(rt, log);
    let [bottom, top, tag, slot, ..] = table;
    let _ = print!(rt; " bottom {bottom} top {top} tag {tag} slot {slot} log");
    each(rt, log);
}

// W, C, P, and how many calls and steps a good file has.
fn good(rt: &impl Print, shape: Shape) {
    let _ = print!(rt;
        " good {} {} {} {} {}",
        shape.width, shape.size, shape.processes, shape.calls, shape.steps
    );
}

// Reads a file.
pub(crate) fn read(rt: &impl Print, file: &[u8]) {
    match reader::read(file) {
        Ok(shape) => good(rt, shape),
        Err(why) => {
            let _ = print!(rt; " refused {}", u8::from(why));
        }
    }
}
