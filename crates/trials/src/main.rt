// Tries the cases on standard input, a line each, and prints a line for each. A case is a letter, a name, a colon and bytes: `r` runs them as a
// run file, `f` only reads them as one, and `j` judges them as a log. Among the bytes `=41` is the length of the buffer for the log, which is that
// of the longest log where nothing is said, and `+4096` that many bytes 0. The stored output of `r` and `j` was written from document 01 by hand.
#![tactic(auto)]

ghost use Rattle.std.specs.Prelude.{◌≤◌, length};

use std::io::Read;

mod show; // what is printed

// The longest file of a case has a schedule of 4,097 steps, which is one too many.
const FILE_BYTES: usize = 4106;

// More than all cases have together.
const TEXT_BYTES: usize = 65536;

// Where the reading of a line stands: at its letter, at the blank after it, in its name, or in its bytes.
#[derive(Clone, Copy)]
enum Stands {
    Letter,
    Blank,
    Name,
    Bytes,
}

// What a case does with its bytes: it runs them as a run file, judges them as a log, or only reads them as a run file.
#[derive(Clone, Copy)]
enum Does {
    Run,
    Judge,
    Read,
}

impl From<u8> for Does {
    fn from(letter: u8) -> Does {
        match letter {
            b'r' => Does::Run,
            b'j' => Does::Judge,
            _ => Does::Read,
        }
    }
}

// What a number among the bytes says: the length of the buffer, so many bytes 0, or a byte.
#[derive(Clone, Copy)]
enum Says {
    Room,
    Zeros,
    Byte,
}

impl From<u8> for Says {
    fn from(sign: u8) -> Says {
        match sign {
            b'=' => Says::Room,
            b'+' => Says::Zeros,
            _ => Says::Byte,
        }
    }
}

// A number among the bytes: what it says by its sign, and its value so far.
#[derive(Clone, Copy)]
struct Number {
    says: Says,
    value: u16,
}

// What is known of a line so far, and the number that is being read, if one was begun. The length of the file stands apart from its bytes, for a case may
// say more bytes than there is memory for.
#[derive(Clone, Copy)]
struct Case {
    stands: Stands,
    does: Does,
    length: u16,
    room: u16,
    number: Option<Number>,
}

// The number with one more digit, where there is room for it; in `words` it would be none.
fn longer(value: u16, digit: u8) -> u16 {
    if value <= 6552 && digit.is_ascii_digit() {
        10 * value + u16::from(digit - b'0')
    } else {
        value
    }
}

impl Case {
    fn fresh() -> Case {
        Case {
            stands: Stands::Letter,
            does: Does::Read,
            length: 0,
            room: call_log::LONGEST_LOG as u16, // 3,077
            number: None,
        }
    }

    // A sign begins a number, and a digit begins it or goes on with it.
    fn number_goes_on(&mut self, c: u8) {
        let says = Says::from(c);
        let begun = self.number.unwrap_or(Number { says, value: 0 });
        self.number = Some(Number {
            says: if c < b'0' { says } else { begun.says },
            value: longer(begun.value, c),
        });
    }

    // Does what a number says.
    fn number_ends(&mut self, file: &mut [u8; FILE_BYTES]) {
        let Some(Number { says, value }) = self.number.take() else {
            return;
        };
        match says {
            Says::Room => self.room = value,
            Says::Zeros => self.length = self.length.wrapping_add(value),
            Says::Byte => {
                if let Some(place) = file.get_mut(usize::from(self.length)) {
                    *place = base::low(value);
                }
                self.length = self.length.wrapping_add(1);
            }
        }
    }

    // Tries the case that a line said.
    fn tries(&self, rt: &impl Print, file: &[u8]) {
        let n = usize::from(self.length).min(file.len());
        match self.does {
            Does::Run => show::run(rt, &file[..n], self.room),
            Does::Judge => show::judged(rt, &file[..n]),
            Does::Read => show::read(rt, &file[..n]),
        }
        let _ = println!(rt);
    }

    // A byte of a line that is not its end. The name is printed as it comes.
    fn line_goes_on(&mut self, rt: &impl Print, file: &mut [u8; FILE_BYTES], c: u8) {
        match (self.stands, c) {
            (Stands::Letter, _) => {
                self.does = Does::from(c);
                self.stands = Stands::Blank;
            }
            (Stands::Blank, _) => self.stands = Stands::Name,
            (Stands::Name, b':') => self.stands = Stands::Bytes,
            (Stands::Name, _) => {
                let _ = rt.write_all(&[c]);
            }
            (Stands::Bytes, b' ') => self.number_ends(file),
            (Stands::Bytes, _) => self.number_goes_on(c),
        }
    }
}

fn all(rt: &impl Print, text: &[u8]) {
    let mut file = [0u8; FILE_BYTES];
    let mut case = Case::fresh();
    for &c in text {
        if c == b'\n' {
            case.number_ends(&mut file);
            case.tries(rt, &file);
            file = [0; FILE_BYTES];
            case = Case::fresh();
        } else {
            case.line_goes_on(rt, &mut file, c);
        }
    }
}

// Reads until the buffer is full, the input ends or a read fails, and answers how many bytes it put at the start of the buffer.
// It is not `stdio::read`, which says why it is a loop, and may not become it: a read that fails ends the cases here without a word, and there it says
// why and gives no bytes.
fn read_full<R: Read>(from: &mut R, buffer: &mut [u8]) -> usize
    ensures { result ≤ length buffer.new }
{
    let mut n = 0;
    while n < buffer.len() {
        match from.read(&mut buffer[n..]) {
            Ok(0) | Err(_) => break,
            Ok(more) => n += more,
        }
    }
    n
}

fn main(rt: HostRuntime) {
    let mut text = [0u8; TEXT_BYTES];
    let n = read_full(&mut rt.stdin(), &mut text);
    all(&rt, &text[..n]);
}
