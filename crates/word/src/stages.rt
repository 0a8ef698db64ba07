// Where a stage stands in the table: what a run has to know of a process besides its step.
ghost use Rattle.std.specs.Prelude.{◌≡◌, ◌-◌};
ghost use Rattle.word.specs.Stages.{row_number, is_idle, at_t1, at_b2, past_b2, pops_slot};

use crate::Stage;

// What lies below b; 0 has nothing below it.
pub fn below(b: u16) -> u16
    ensures { result ≡ b - 1 }
{
    b.saturating_sub(1)
}

impl Stage {
    // The row of the table that a stage stands at, from 1; an idle stage stands at 0.
    pub fn row_number(self) -> u8
        ensures { result ≡ row_number self }
    {
        match self {
            Stage::Idle => 0,
            Stage::P1 { .. } => 1,
            Stage::P2 { .. } => 2,
            Stage::P3 { .. } => 3,
            Stage::T1 => 4,
            Stage::T2 { .. } => 5,
            Stage::T3 { .. } => 6,
            Stage::T4 { .. } => 7,
            Stage::B1 => 8,
            Stage::B2 { .. } => 9,
            Stage::B3 { .. } => 10,
            Stage::B4 { .. } => 11,
            Stage::B5 { .. } => 12,
            Stage::B6 { .. } => 13,
            Stage::B7 { .. } => 14,
        }
    }

    pub fn is_idle(self) -> bool
        ensures { result ≡ is_idle self }
    {
        matches!(self, Stage::Idle)
    }

    pub fn at_t1(self) -> bool
        ensures { result ≡ at_t1 self }
    {
        matches!(self, Stage::T1)
    }

    pub fn at_b2(self) -> bool
        ensures { result ≡ at_b2 self }
    {
        matches!(self, Stage::B2 { .. })
    }

    pub fn past_b2(self) -> bool
        ensures { result ≡ past_b2 self }
    {
        matches!(
            self,
            Stage::B3 { .. }
                | Stage::B4 { .. }
                | Stage::B5 { .. }
                | Stage::B6 { .. }
                | Stage::B7 { .. }
        )
    }

    // In a bottom pop past B2 with b−1 = t.
    pub fn pops_slot(self, t: u16) -> bool
        ensures { result ≡ pops_slot self t }
    {
        match self {
            Stage::B3 { b }
            | Stage::B4 { b, .. }
            | Stage::B5 { b, .. }
            | Stage::B6 { b, .. }
            | Stage::B7 { b, .. } => below(b) == t,
            _ => false,
        }
    }
}
