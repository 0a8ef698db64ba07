// Section 3's calls: the first that is wrong.
ghost use Rattle.std.specs.Prelude.{◌≡◌, ◌+◌};
ghost use Rattle.runfile.specs.Check.{first_of};
ghost use Rattle.runfile.specs.File.{first_calls, wrong_at};
ghost use Rattle.runfile.specs.Refusals.{number_in};
ghost use Rattle.reader.specs.Inner.Marks.{Marks};

use marks::{MARK_BYTES, mark};
use runfile::{Call, Refusal, coded_at};

// What refuses call k; where nothing does, the table stands for one call more.
fn wrong_call(
    file: &[u8],
    processes: u8,
    k: u16,
    marks: &mut [u8; MARK_BYTES],
) -> Result<(), Refusal>
    requires { Marks marks.old (first_calls file.now processes k) }
    ensures value { number_in result ≡ wrong_at file.now processes k }
    ensures marks_after { number_in result ≡ 0 → Marks marks.new (first_calls file.now processes (k + 1)) }
{
    match coded_at(file, processes, k)? {
        Call::Push(node) => if mark(marks, node) {
            Err(Refusal::WrongNode)
        } else {
            Ok(())
        },
        Call::Pop | Call::Take(_) => Ok(()),
    }
}

// What refuses the first wrong call.
pub(crate) fn first_wrong(file: &[u8], processes: u8, calls: u16) -> Result<(), Refusal>
    ensures { number_in result ≡ first_of (wrong_at file.now processes) calls }
{
    let mut marks = [0u8; MARK_BYTES];
    for k in 0..calls {
        wrong_call(file, processes, k, &mut marks)?;
    }
    Ok(())
}
