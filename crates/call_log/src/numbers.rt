// What a call did: its kind and its result, and back.
ghost use Rattle.std.specs.Prelude.{◌≡◌};
ghost use Rattle.call_log.specs.Numbers.{kind_of, result_of, what_of, what};

use crate::{BOTTOM_POP, DONE, Entry, FULL, LOST, NIL, PUSH, TOP_POP, What};

impl What {
    // The kind of what a call did.
    pub fn kind(self) -> u8
        ensures { result ≡ kind_of self }
    {
        match self {
            What::Pushed | What::Full => PUSH,
            What::BottomNode | What::BottomNil => BOTTOM_POP,
            What::TopNode | What::TopNil | What::TopLost => TOP_POP,
        }
    }

    // The result of what a call did.
    pub fn result(self) -> u8
        ensures { result ≡ result_of self }
    {
        match self {
            What::Full => FULL,
            What::TopLost => LOST,
            What::BottomNil | What::TopNil => NIL,
            What::Pushed | What::BottomNode | What::TopNode => DONE,
        }
    }

    // What a kind and a result say a call did. No `TryFrom`: the definition `what_of`, on which the rules stand, reads other numbers as a top pop and as
    // NIL, and rule 1 refuses them.
    pub fn from_numbers(kind: u8, res: u8) -> What
        ensures { result ≡ what_of kind res }
    {
        match (kind, res) {
            (PUSH, DONE) => What::Pushed,
            (PUSH, _) => What::Full,
            (BOTTOM_POP, DONE) => What::BottomNode,
            (BOTTOM_POP, _) => What::BottomNil,
            (_, DONE) => What::TopNode,
            (_, LOST) => What::TopLost,
            _ => What::TopNil,
        }
    }
}

impl Entry {
    // What the call did.
    pub fn what(self) -> What
        ensures { result ≡ what self }
    {
        What::from_numbers(self.kind, self.result)
    }
}
