// What a line typed at the desk says: first W and C, then a stage a line, with document 01's names and numbers.
#![tactic(auto)]

ghost use Rattle.std.specs.Prelude.{◌≡◌};
ghost use Rattle.lines.specs.Line.{taken as taken_as, bottom_of, top_of, stage_of, line_of, sizes_of};

mod shown; // why a line is not run, as it is said

use word::{Sizes, Stage};
use words::{Words, words_of};

// The names, as the words of a line spell them: a 1, and the letters in base 256. `words::Words` says why a name is a number.
const IDLE: u64 = 0x1_49_44_4C_45;

const P1: u64 = 0x1_50_31;

const P2: u64 = 0x1_50_32;

const P3: u64 = 0x1_50_33;

const T1: u64 = 0x1_54_31;

const T2: u64 = 0x1_54_32;

const T3: u64 = 0x1_54_33;

const T4: u64 = 0x1_54_34;

const B1: u64 = 0x1_42_31;

const B2: u64 = 0x1_42_32;

const B3: u64 = 0x1_42_33;

const B4: u64 = 0x1_42_34;

const B5: u64 = 0x1_42_35;

const B6: u64 = 0x1_42_36;

const B7: u64 = 0x1_42_37;

// Why a line says no stage: nothing on the line; no such stage; not that many numbers for the stage that was meant; a word that is no number there.
#[derive(Clone, Copy)]
pub enum Why {
    Nothing,
    NoStage,
    Count(Stage),
    NoNumber(Stage),
}

// Why a line does not say W and C: nothing on the line; not two words; W is no number from 0 to 16; C is no number from 1 to 64.
#[derive(Clone, Copy)]
pub enum SizesWhy {
    Nothing,
    NotTwo,
    Width,
    Size,
}

// A stage whose line has so many words, its name among them.
fn taken(words: Words, wanted: u8, stage: Stage) -> Result<Stage, Why>
    ensures { result ≡ taken_as words wanted stage }
{
    if words.count != wanted {
        Err(Why::Count(stage))
    } else if words.all_numbers() {
        Ok(stage)
    } else {
        Err(Why::NoNumber(stage))
    }
}

// The stages of a bottom pop.
fn bottom_of(words: Words) -> Result<Stage, Why>
    ensures { result ≡ bottom_of words }
{
    let [b, x, t, g] = words.values();
    match words.name {
        B1 => taken(words, 1, Stage::B1),
        B2 => taken(words, 2, Stage::B2 { b }),
        B3 => taken(words, 2, Stage::B3 { b }),
        B4 => taken(words, 3, Stage::B4 { b, x }),
        B5 => taken(words, 5, Stage::B5 { b, x, t, g }),
        B6 => taken(words, 5, Stage::B6 { b, x, t, g }),
        B7 => taken(words, 5, Stage::B7 { b, x, t, g }),
        _ => Err(Why::NoStage),
    }
}

// The stages of a top pop, or those above.
fn top_of(words: Words) -> Result<Stage, Why>
    ensures { result ≡ top_of words }
{
    let [t, g, b, x] = words.values();
    match words.name {
        T1 => taken(words, 1, Stage::T1),
        T2 => taken(words, 3, Stage::T2 { t, g }),
        T3 => taken(words, 4, Stage::T3 { t, g, b }),
        T4 => taken(words, 5, Stage::T4 { t, g, b, x }),
        _ => bottom_of(words),
    }
}

// Idle and the stages of a push, or those above.
fn stage_of(words: Words) -> Result<Stage, Why>
    ensures { result ≡ stage_of words }
{
    let [first, second, ..] = words.values();
    match words.name {
        IDLE => taken(words, 1, Stage::Idle),
        P1 => taken(words, 2, Stage::P1 { node: first }),
        P2 => taken(
            words,
            3,
            Stage::P2 {
                node: first,
                b: second,
            },
        ),
        P3 => taken(words, 2, Stage::P3 { b: first }),
        _ => top_of(words),
    }
}

// What a stage line says, for every slice of bytes.
pub fn read_stage(line: &[u8]) -> Result<Stage, Why>
    ensures { result ≡ line_of line.now }
{
    let words = words_of(line, 0);
    if words.count == 0 {
        return Err(Why::Nothing);
    }
    stage_of(words)
}

// What the line of W and C says, for every slice of bytes. They are the words after a name, which counts as read.
pub fn read_sizes(line: &[u8]) -> Result<Sizes, SizesWhy>
    ensures { result ≡ sizes_of line.now }
{
    let words = words_of(line, 1);
    if words.count == 1 {
        return Err(SizesWhy::Nothing);
    }
    if words.count != 3 {
        return Err(SizesWhy::NotTwo);
    }
    // both fit a byte, as the pattern says; `u8::try_from` would have an error that cannot come
    match words.numbers {
        [Some(width @ 0..=16), Some(size @ 1..=64), ..] => Ok(Sizes {
            width: width as u8,
            size: size as u8,
        }),
        [Some(0..=16), ..] => Err(SizesWhy::Size),
        _ => Err(SizesWhy::Width),
    }
}
