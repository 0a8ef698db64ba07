// What the program prints, a line at a time. A write that fails is passed over.

// The entries of a log, a line each: process, queue, kind, result, node, start, end, moment. No `Display` of an entry: this program alone prints one.
pub(crate) fn entries(rt: &impl Print, log: &[u8], count: u16) {
    for i in 0..count {
        let of = call_log::entry_at(log, usize::from(i));
        let _ = println!(rt;
            "{} {} {} {} {} {} {} {}",
            of.process, of.queue, of.kind, of.result, of.node, of.start, of.end, of.moment
        );
    }
}

// The nodes that a log leaves in a queue, top first.
fn left_in(rt: &impl Print, log: &[u8], queue: u8) {
    let mut nodes = [0u16; 256];
    let count = leaves::left(log, queue, &mut nodes).unwrap_or(0);
    let nodes = &nodes[..usize::from(count)];
    let _ = print!(rt; "queue {queue} left");
    for node in nodes {
        let _ = print!(rt; " {node}");
    }
    let _ = println!(rt; "{}", if nodes.is_empty() { " none" } else { "" });
}

// What is left in each queue below P, a line each, and a line more where takes have gone round.
pub(crate) fn left(rt: &impl Print, log: &[u8], gone: u16) {
    for queue in 0..base::byte_at(log, 1) {
        left_in(rt, log, queue);
    }
    if 0 < gone {
        let _ = println!(rt; "gone-round: nothing is promised of these nodes");
    }
}

// How the program is used.
pub(crate) fn usage(to: &impl Print) {
    let _ = println!(to;
        "usage: program         runs the run file on standard input\n       program left    runs it and prints the nodes left in each queue"
    );
    let _ = println!(to;
        "       program judge   judges the log on standard input\n       program help    prints this"
    );
}
