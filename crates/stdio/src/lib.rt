// Standard input, for the programs. No contract can say what is read: what matters is done in other libraries.
#![tactic(auto)]

ghost use Rattle.std.specs.Prelude.{IfSome};
ghost use Rattle.io.specs.Counts.{IsPrefixLen};

use std::io::Read;

mod why; // why a read failed

// Reads until the buffer is full or the input ends, and answers how many bytes that is. A read that fails is not the end of the input: it says why,
// and there is no answer.
pub fn read<R: Read>(rt: &impl Eprint, from: &mut R, buffer: &mut [u8]) -> Option<usize>
    ensures { IfSome result (λ n. IsPrefixLen n buffer.new) }
{
    let mut n = 0;
    // it goes on by as many bytes as a read gives; std's `read_to_end` wants a heap, and `read_exact` doesn't say how many bytes a short input has
    while n < buffer.len() {
        match from.read(&mut buffer[n..]) {
            Ok(0) => break,
            Ok(more) => n += more,
            Err(error) => {
                why::fail(rt, "scarpgoblet: standard input", error);
                return None;
            }
        }
    }
    Some(n)
}
