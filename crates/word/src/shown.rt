// A stage as it is typed at the desk: its name, and each of its numbers after a space.
ghost use Rattle.std.specs.Prelude.{Some};
ghost use Rattle.word.specs.Shown.{shown};

use crate::Stage;
use std::fmt;

impl fmt::Display for Stage {
    ghost output = { λ stage. Some (shown stage) };

    fn fmt<W: fmt::Write>(&self, f: &mut fmt::Formatter<W>) -> fmt::Result {
        match *self {
            Stage::Idle => write!(f, "idle"),
            Stage::P1 { node } => write!(f, "P1 {node}"),
            Stage::P2 { node, b } => write!(f, "P2 {node} {b}"),
            Stage::P3 { b } => write!(f, "P3 {b}"),
            Stage::T1 => write!(f, "T1"),
            Stage::T2 { t, g } => write!(f, "T2 {t} {g}"),
            Stage::T3 { t, g, b } => write!(f, "T3 {t} {g} {b}"),
            Stage::T4 { t, g, b, x } => write!(f, "T4 {t} {g} {b} {x}"),
            Stage::B1 => write!(f, "B1"),
            Stage::B2 { b } => write!(f, "B2 {b}"),
            Stage::B3 { b } => write!(f, "B3 {b}"),
            Stage::B4 { b, x } => write!(f, "B4 {b} {x}"),
            Stage::B5 { b, x, t, g } => write!(f, "B5 {b} {x} {t} {g}"),
            Stage::B6 { b, x, t, g } => write!(f, "B6 {b} {x} {t} {g}"),
            Stage::B7 { b, x, t, g } => write!(f, "B7 {b} {x} {t} {g}"),
        }
    }
}
