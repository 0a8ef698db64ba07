// The age in one word of 32 bits: the tag in the upper sixteen, the top in the lower.
ghost use Rattle.std.specs.Prelude.{◌≡◌};
ghost use Rattle.steps.specs.Packed.{packed, top_of, tag_of, next_age, packed_word, unpacked, unpacked_step};

use crate::tag::next_tag;
use crate::{PackedAge, PackedStep, PackedWord, Stepped};
use word::Word;

impl PackedAge {
    pub fn of(top: u16, tag: u16) -> PackedAge
        ensures { result.word ≡ packed top tag }
    {
        PackedAge {
            word: u32::from(tag) * 65536 + u32::from(top),
        }
    }

    pub fn top(self) -> u16
        ensures { result ≡ top_of self.word }
    {
        (self.word % 65536) as u16
    }

    pub fn tag(self) -> u16
        ensures { result ≡ tag_of self.word }
    {
        (self.word / 65536) as u16
    }

    // The age after a reset: top 0, and the next tag.
    pub fn next_age(self, width: u8) -> PackedAge
        ensures { result.word ≡ next_age width self.word }
    {
        PackedAge::of(0, next_tag(width, self.tag()))
    }
}

impl From<Word> for PackedWord {
    ghost from_gives = { λ w r. r ≡ packed_word w };

    fn from(word: Word) -> PackedWord {
        PackedWord {
            bottom: word.bottom,
            age: PackedAge::of(word.top, word.tag),
        }
    }
}

impl From<PackedWord> for Word {
    ghost from_gives = { λ w r. r ≡ unpacked w };

    fn from(word: PackedWord) -> Word {
        Word {
            bottom: word.bottom,
            top: word.age.top(),
            tag: word.age.tag(),
        }
    }
}

impl From<PackedStep> for Stepped {
    ghost from_gives = { λ o r. r ≡ unpacked_step o };

    fn from(step: PackedStep) -> Stepped {
        Stepped {
            word: step.word.into(),
            store: step.store,
            reset: step.reset,
            next: step.next,
        }
    }
}
