// Document 01's rules of a log, as definitions and theorems in specs/ and proofs/. There is no code here but what the judge gives back.
#![tactic(auto)]

ghost use Rattle.std.specs.Prelude.{◌≡◌};
ghost use Rattle.rules.specs.Judge.{rule_number, verdict_in};

// What a log breaks: it is cut short, has a wrong head or is too long, or an entry breaks one of rules 1 to 6.
#[derive(Clone, Copy, PartialEq, Eq)]
pub enum Rule {
    CutShort,
    Head,
    TooLong,
    Fields,
    Ends,
    Moments,
    Contents,
    Causes,
    Full,
}

impl From<Rule> for u8 {
    ghost from_gives = { λ rule number. number ≡ rule_number rule };

    fn from(rule: Rule) -> u8 {
        match rule {
            Rule::CutShort => 11,
            Rule::Head => 12,
            Rule::TooLong => 13,
            Rule::Fields => 14,
            Rule::Ends => 15,
            Rule::Moments => 16,
            Rule::Contents => 17,
            Rule::Causes => 18,
            Rule::Full => 19,
        }
    }
}

// What the judge refuses a log for: the rule, and the entry at fault, from 0.
#[derive(Clone, Copy, PartialEq, Eq)]
pub struct Fault {
    pub rule: Rule,
    pub entry: u16,
}

// The number given back, 0 for an accepted log, and the entry.
pub fn numbers(verdict: Result<(), Fault>) -> (u8, u16)
    ensures number { result.0 ≡ (verdict_in verdict).number }
    ensures entry { result.1 ≡ (verdict_in verdict).entry }
{
    match verdict {
        Ok(()) => (0, 0),
        Err(fault) => (u8::from(fault.rule), fault.entry),
    }
}
