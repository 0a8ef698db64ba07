// What follows a step as the desk prints it: the next stage in the words in which it is typed, or the result of the call.
ghost use Rattle.std.specs.Prelude.{Some};
ghost use Rattle.steps.specs.Shown.{shown};

use crate::Next;
use std::fmt;

impl fmt::Display for Next {
    ghost output = { λ next. Some (shown next) };

    fn fmt<W: fmt::Write>(&self, f: &mut fmt::Formatter<W>) -> fmt::Result {
        match *self {
            Next::Going(stage) => write!(f, "next {stage}"),
            Next::Done => write!(f, "done"),
            Next::Node(node) => write!(f, "node {node}"),
            Next::Nil => write!(f, "nil"),
            Next::Lost => write!(f, "lost"),
            Next::Full => write!(f, "full"),
        }
    }
}
