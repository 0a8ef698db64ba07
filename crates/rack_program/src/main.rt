// The rack: runs the files of a rack on standard input and prints a line a file, its number, entries, steps, gone-round takes and the judge's number;
// or `refused` and the number of what is no rack.
#![tactic(auto)]

use rack::REPLY_LENGTH;

// As much as is read, and as many files as are replied to: whoever packs more makes two racks. A longer rack, of whose end nothing is known, is not
// run.
const RACK_BYTES: usize = 65536;

const MOST_FILES: usize = 1024;

// Replies, a line each: the number, and the four numbers after it, where `rack` puts them for a host in C too (include/scarpgoblet.h).
fn print_replies(rt: &impl Print, replies: &[u8]) {
    for reply in replies.chunks_exact(REPLY_LENGTH) {
        let _ = println!(rt;
            "{} {} {} {} {}",
            base::byte_at(reply, 0),
            base::number_at(reply, 1),
            base::number_at(reply, 3),
            base::number_at(reply, 5),
            base::byte_at(reply, 7)
        );
    }
}

fn run_rack(rt: &impl Print, files: &[u8]) {
    let mut log = [0u8; call_log::LONGEST_LOG];
    let mut replies = [0u8; REPLY_LENGTH * MOST_FILES];
    match rack::rack(files, &mut log, &mut replies) {
        Ok(()) => {
            let count = usize::from(base::number_at(files, 0)).min(MOST_FILES);
            print_replies(rt, &replies[..REPLY_LENGTH * count]);
        }
        Err(refusal) => {
            let _ = println!(rt; "refused {}", u8::from(refusal));
        }
    }
}

fn main(rt: HostRuntime) {
    let mut files = [0u8; RACK_BYTES + 1];
    match stdio::read(&rt, &mut rt.stdin(), &mut files) {
        Some(n) if n <= RACK_BYTES => run_rack(&rt, &files[..n]),
        Some(_) => {
            let _ = println!(rt; "longer than {RACK_BYTES} bytes");
        }
        None => {} // the read failed, and it has been said why
    }
}
