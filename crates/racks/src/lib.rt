// A rack of files, as definitions and theorems in specs/ and proofs/: what `rack` has to do. There is no code here but how it refuses.
#![tactic(auto)]

ghost use Rattle.std.specs.Prelude.{◌≡◌};
ghost use Rattle.racks.specs.Rack.{refusal_number};

// The bytes are no rack; a reply for each file has no room.
#[derive(Clone, Copy, PartialEq, Eq)]
pub enum Refusal {
    NoRack,
    NoRoom,
}

impl From<Refusal> for u8 {
    ghost from_gives = { λ refusal number. number ≡ refusal_number refusal };

    fn from(refusal: Refusal) -> u8 {
        match refusal {
            Refusal::NoRack => 21,
            Refusal::NoRoom => 22,
        }
    }
}
