// What refuses a section, and a file. Only section 1 looks at the first three bytes (see places.rt of runfile).
ghost use Rattle.std.specs.Prelude.{◌≡◌, leb};
ghost use Rattle.runfile.specs.Check.{◌when◌, any};
ghost use Rattle.runfile.specs.Refusals.{refusal_number, number_in};
ghost use Rattle.runfile.specs.File.{section1, section2, section3, section4, later_sections, number_of};

use crate::calls::first_wrong;
use crate::{
    LONGEST_SCHEDULE, LONGEST_SCRIPT, MOST_PROCESSES, MOST_SIZE, MOST_WIDTH, SECTION_COUNT,
};
use runfile::{
    PROCESSES_PLACE, Refusal, SIZE_PLACE, WIDTH_PLACE, call_place, calls_before, shape_in,
    share_place,
};

// The refusal where the test holds.
fn refuse_if(test: bool, why: Refusal) -> Result<(), Refusal>
    ensures { number_in result ≡ (refusal_number why when test) }
{
    if test { Err(why) } else { Ok(()) }
}

// Whether one of the bytes is the limit or more. The fold has no exit, so that many bytes are compared at once.
fn reaches(bytes: &[u8], limit: u8) -> bool
    ensures { result ≡ any (leb limit) bytes.now }
{
    bytes
        .iter()
        .copied()
        .fold(false, |hit, byte| hit | (limit <= byte))
}

// Section 1: a byte 2, then W and C.
fn section_1(file: &[u8]) -> Result<(), Refusal>
    ensures { number_in result ≡ section1 file.now }
{
    if file.is_empty() {
        return Err(Refusal::CutShort);
    }
    if file[0] != SECTION_COUNT {
        return Err(Refusal::WrongSizes);
    }
    if file.len() < PROCESSES_PLACE {
        return Err(Refusal::CutShort);
    }
    if MOST_WIDTH < file[WIDTH_PLACE] {
        return Err(Refusal::WrongSizes);
    }
    refuse_if(
        !(1..=MOST_SIZE).contains(&file[SIZE_PLACE]),
        Refusal::WrongSizes,
    )
}

// Section 2: P, then the script lengths.
fn section_2(file: &[u8]) -> Result<(), Refusal>
    ensures { number_in result ≡ section2 file.now }
{
    let counted = share_place(0);
    if file.len() < counted {
        return Err(Refusal::CutShort);
    }
    let processes = file[PROCESSES_PLACE];
    if !(1..=MOST_PROCESSES).contains(&processes) {
        return Err(Refusal::WrongScripts);
    }
    let ended = share_place(processes);
    if file.len() < ended {
        return Err(Refusal::CutShort);
    }
    refuse_if(
        reaches(&file[counted..ended], LONGEST_SCRIPT + 1),
        Refusal::WrongScripts,
    )
}

// Section 3: the number of calls, then the calls from the front.
fn section_3(file: &[u8]) -> Result<(), Refusal>
    ensures { number_in result ≡ section3 file.now }
{
    let shape = shape_in(file);
    let counted = call_place(shape.processes, 0);
    if file.len() < counted {
        return Err(Refusal::CutShort);
    }
    if shape.calls != calls_before(file, shape.processes) {
        return Err(Refusal::WrongCall);
    }
    let ended = call_place(shape.processes, shape.calls);
    if file.len() < ended {
        return Err(Refusal::CutShort);
    }
    first_wrong(file, shape.processes, shape.calls)
}

// Section 4: the length of the schedule, then processes below P.
fn section_4(file: &[u8]) -> Result<(), Refusal>
    ensures { number_in result ≡ section4 file.now }
{
    let shape = shape_in(file);
    let counted = shape.schedule_place();
    if file.len() < counted {
        return Err(Refusal::CutShort);
    }
    if LONGEST_SCHEDULE < shape.steps {
        return Err(Refusal::WrongSchedule);
    }
    let ended = shape.schedule_end();
    if file.len() < ended {
        return Err(Refusal::CutShort);
    }
    refuse_if(
        reaches(&file[counted..ended], shape.processes),
        Refusal::WrongSchedule,
    )
}

// Sections 2 to 4, and the bytes after them.
fn later_sections(file: &[u8]) -> Result<(), Refusal>
    ensures { number_in result ≡ later_sections file.now }
{
    section_2(file)?;
    section_3(file)?;
    section_4(file)?;
    let shape = shape_in(file);
    refuse_if(shape.schedule_end() < file.len(), Refusal::BytesAfter)
}

// What refuses a file.
pub(crate) fn check(file: &[u8]) -> Result<(), Refusal>
    ensures { number_in result ≡ number_of file.now }
{
    section_1(file)?;
    later_sections(file)
}
