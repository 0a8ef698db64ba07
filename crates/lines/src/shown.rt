// Why a line is not run, as the desk says it.
ghost use Rattle.std.specs.Prelude.{◌≡◌, Some};
ghost use Rattle.lines.specs.Shown.{takes as takes_of, shown_why, shown_sizes};

use crate::{SizesWhy, Why};
use std::fmt;
use word::Stage;

// How many numbers a stage takes, and the name of each.
fn takes(meant: Stage) -> &'static str
    ensures { result.now ≡ takes_of meant }
{
    match meant {
        Stage::Idle => "idle takes no numbers",
        Stage::P1 { .. } => "P1 takes 1 number: node",
        Stage::P2 { .. } => "P2 takes 2 numbers: node b",
        Stage::P3 { .. } => "P3 takes 1 number: b",
        Stage::T1 => "T1 takes no numbers",
        Stage::T2 { .. } => "T2 takes 2 numbers: t g",
        Stage::T3 { .. } => "T3 takes 3 numbers: t g b",
        Stage::T4 { .. } => "T4 takes 4 numbers: t g b x",
        Stage::B1 => "B1 takes no numbers",
        Stage::B2 { .. } => "B2 takes 1 number: b",
        Stage::B3 { .. } => "B3 takes 1 number: b",
        Stage::B4 { .. } => "B4 takes 2 numbers: b x",
        Stage::B5 { .. } => "B5 takes 4 numbers: b x t g",
        Stage::B6 { .. } => "B6 takes 4 numbers: b x t g",
        Stage::B7 { .. } => "B7 takes 4 numbers: b x t g",
    }
}

impl fmt::Display for Why {
    ghost output = { λ why. Some (shown_why why) };

    fn fmt<W: fmt::Write>(&self, f: &mut fmt::Formatter<W>) -> fmt::Result {
        match *self {
            Why::Nothing => write!(
                f,
                "nothing on the line: a stage and its numbers are wanted, as in T2 0 0"
            ),
            Why::NoStage => write!(
                f,
                "no such stage: they are idle, P1 to P3, T1 to T4 and B1 to B7"
            ),
            Why::Count(meant) => write!(f, "{}", takes(meant)),
            Why::NoNumber(meant) => {
                write!(f, "not all are numbers from 0 to 65535: {}", takes(meant))
            }
        }
    }
}

impl fmt::Display for SizesWhy {
    ghost output = { λ why. Some (shown_sizes why) };

    fn fmt<W: fmt::Write>(&self, f: &mut fmt::Formatter<W>) -> fmt::Result {
        match self {
            SizesWhy::Nothing => write!(
                f,
                "nothing on the line: W and C are wanted first, as in 8 4"
            ),
            SizesWhy::NotTwo => write!(f, "the first line takes 2 numbers: W C"),
            SizesWhy::Width => write!(f, "W is a number from 0 to 16"),
            SizesWhy::Size => write!(f, "C is a number from 1 to 64"),
        }
    }
}
