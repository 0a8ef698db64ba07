// What can be stepped: document 01's conditions at the desk.
#![tactic(auto)]

ghost use Rattle.std.specs.Prelude.{◌≡◌};
ghost use Rattle.word.specs.Tag.{is_tag};
ghost use Rattle.word.specs.Range.{sizes_in, age_in, word_in, take_in, pop_in, stage_in, in_range};

use word::{Sizes, Stage, Word};

// A tag is below 2^W.
#[tactic(auto, using(word::proofs::TagLaws::tag_wide))]
fn is_tag(width: u8, g: u16) -> bool
    ensures { result ≡ is_tag width g }
{
    width >= 16 || g < 1u16 << width
}

fn sizes_in(sizes: Sizes, slots: usize) -> bool
    ensures { result ≡ sizes_in sizes.width sizes.size slots }
{
    sizes.width <= 16 && 1 <= sizes.size && sizes.size <= 64 && slots == usize::from(sizes.size)
}

fn age_in(sizes: Sizes, t: u16, g: u16) -> bool
    ensures { result ≡ age_in sizes.width sizes.size t g }
{
    t <= u16::from(sizes.size) && is_tag(sizes.width, g)
}

fn word_in(sizes: Sizes, word: Word) -> bool
    ensures { result ≡ word_in sizes.width sizes.size word }
{
    word.bottom <= u16::from(sizes.size) && age_in(sizes, word.top, word.tag)
}

fn take_in(sizes: Sizes, t: u16, g: u16, b: u16) -> bool
    ensures { result ≡ take_in sizes.width sizes.size t g b }
{
    let size = u16::from(sizes.size);
    t < size && is_tag(sizes.width, g) && b <= size
}

fn pop_in(size: u8, b: u16) -> bool
    ensures { result ≡ pop_in size b }
{
    1 <= b && b <= u16::from(size)
}

fn stage_in(sizes: Sizes, stage: Stage) -> bool
    ensures { result ≡ stage_in sizes.width sizes.size stage }
{
    match stage {
        Stage::Idle | Stage::P1 { .. } | Stage::T1 | Stage::B1 => true,
        Stage::P2 { b, .. } | Stage::P3 { b } => b < u16::from(sizes.size),
        Stage::T2 { t, g } => age_in(sizes, t, g),
        Stage::T3 { t, g, b } | Stage::T4 { t, g, b, .. } => take_in(sizes, t, g, b),
        Stage::B2 { b } | Stage::B3 { b } | Stage::B4 { b, .. } => pop_in(sizes.size, b),
        Stage::B5 { b, t, g, .. } | Stage::B6 { b, t, g, .. } | Stage::B7 { b, t, g, .. } => {
            pop_in(sizes.size, b) && age_in(sizes, t, g)
        }
    }
}

// Whether a stage can be stepped, or gives the desk's 10.
pub fn in_range(sizes: Sizes, slots: usize, word: Word, stage: Stage) -> bool
    ensures { result ≡ in_range sizes.width sizes.size slots word stage }
{
    sizes_in(sizes, slots) && word_in(sizes, word) && stage_in(sizes, stage)
}
