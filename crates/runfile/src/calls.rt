// Section 3's calls, each by its code and argument.
ghost use Rattle.std.specs.Prelude.{◌≡◌};
ghost use Rattle.runfile.specs.File.{call_of, coded_at, call_at};

use crate::places::call_place;
use crate::{Call, Refusal};
use base::{byte_at, joined, number_at};

// The codes of a call. The log's kinds are those of another format (crate call_log).
const PUSH: u8 = 1;

const POP: u8 = 2;

const TAKE: u8 = 3;

// What a code and its argument say.
pub fn call_of(processes: u8, code: u8, argument: u16) -> Result<Call, Refusal>
    ensures { result ≡ call_of processes code argument }
{
    match code {
        PUSH => if argument == 0 {
            Err(Refusal::WrongNode)
        } else {
            Ok(Call::Push(argument))
        },
        POP => if argument == 0 {
            Ok(Call::Pop)
        } else {
            Err(Refusal::WrongCall)
        },
        TAKE => match u8::try_from(argument) {
            Ok(queue) if queue < processes => Ok(Call::Take(queue)),
            _ => Err(Refusal::WrongCall),
        },
        _ => Err(Refusal::WrongCall),
    }
}

// What the bytes of call k say; bytes past the end read as 0, and one test tells whether there are any.
pub fn coded_at(file: &[u8], processes: u8, k: u16) -> Result<Call, Refusal>
    ensures { result ≡ coded_at file.now processes k }
{
    let at = call_place(processes, k);
    if at + 3 <= file.len() {
        call_of(processes, file[at], joined(file[at + 1], file[at + 2]))
    } else {
        call_of(processes, byte_at(file, at), number_at(file, at + 1))
    }
}

// Call k of the file; Pop where its bytes say none, which is so in no good file.
pub fn call_at(file: &[u8], processes: u8, k: u16) -> Call
    ensures { result ≡ call_at file.now processes k }
{
    coded_at(file, processes, k).unwrap_or(Call::Pop)
}
