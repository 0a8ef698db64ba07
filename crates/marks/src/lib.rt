// The table of marks: a bit for each node, so that a repeat is found without a second look at the calls before it.
#![tactic(auto)]

ghost use Rattle.std.specs.Prelude.{◌≡◌};
ghost use Rattle.marks.specs.Inner.Marks.{marked, with_mark};

pub const MARK_BYTES: usize = 8192;

// Marks a node; whether it was marked before.
pub fn mark(marks: &mut [u8; MARK_BYTES], node: u16) -> bool
    ensures { (result ≡ marked marks.old node) × (marks.new ≡ with_mark marks.old node) }
{
    let at = usize::from(node / 8);
    let bit = node % 8;
    let byte = marks[at];
    marks[at] = byte | 1u8 << bit;
    (byte >> bit) % 2 == 1
}
