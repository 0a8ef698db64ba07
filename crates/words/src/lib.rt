// The words of a line: how many they are, what the first one spells, and the next four as numbers. Words stand apart by blanks.
#![tactic(auto)]

ghost use Rattle.std.specs.Prelude.{◌≡◌, map};
ghost use Rattle.words.specs.Words.{blank, spelled, counted, word_at, fed, start, words_of, numbers, small};

// What is known of a line's words so far: whether its last byte is in a word, how many have begun (6 for more), the name that the first spells,
// and the four after it as numbers: none where a word is no number from 0 to 65,535, and 0 where no word has begun.
// The name is one number and the count a number to 6 because the definitions `spelled` and `word_at` have them so: what a line says (`line_of`,
// `stage_of`) and the theorem `read_back` speak of them.
#[derive(Clone, Copy)]
pub struct Words {
    pub inside: bool,
    pub count: u8,
    pub name: u64,
    pub numbers: [Option<u16>; 4],
}

// A space, a tab, or the carriage return that some terminals put at the end.
fn is_blank(byte: u8) -> bool
    ensures { result ≡ blank byte }
{
    matches!(byte, b' ' | b'\t' | b'\r')
}

// The name with one letter more, in base 256; from 1 on, so that a byte 0 counts. A letter may be typed small. Five letters are no stage's name, and
// more need not be kept.
fn spell(name: u64, byte: u8) -> u64
    ensures { result ≡ spelled name byte }
{
    if name < 0x10000000000 {
        256 * name + u64::from(byte.to_ascii_uppercase())
    } else {
        name
    }
}

// The number with one digit more.
fn count(number: Option<u16>, byte: u8) -> Option<u16>
    ensures { result ≡ counted number byte }
{
    if !byte.is_ascii_digit() {
        return None;
    }
    let digit = u16::from(byte - b'0');
    number?.checked_mul(10)?.checked_add(digit)
}

impl Words {
    // Which word a byte that is no blank belongs to.
    fn word_at(&self) -> u8
        ensures { result ≡ word_at self.now.inside self.now.count }
    {
        if self.inside {
            self.count
        } else {
            self.count.saturating_add(1).min(6)
        }
    }

    fn feed(&mut self, byte: u8)
        ensures { self.new ≡ fed self.old byte }
    {
        if is_blank(byte) {
            self.inside = false;
            return;
        }
        self.count = self.word_at();
        self.inside = true;
        match self.count {
            1 => self.name = spell(self.name, byte),
            at @ 2..=5 => {
                let number = &mut self.numbers[usize::from(at) - 2];
                *number = count(*number, byte);
            }
            _ => {}
        }
    }

    pub fn all_numbers(self) -> bool
        ensures { result ≡ numbers self }
    {
        matches!(self.numbers, [Some(_), Some(_), Some(_), Some(_)])
    }

    // The four numbers, with 0 for a word that is none.
    pub fn values(self) -> [u16; 4]
        ensures { result ≡ map small self.numbers }
    {
        self.numbers.map(|number| number.unwrap_or(0))
    }
}

// The words of a line, where so many count as read before it.
pub fn words_of(line: &[u8], before: u8) -> Words
    ensures { result ≡ words_of (start before) line.now }
{
    let mut words = Words {
        inside: false,
        count: before,
        name: 1,
        numbers: [Some(0); 4],
    };
    for &byte in line {
        words.feed(byte);
    }
    words
}
