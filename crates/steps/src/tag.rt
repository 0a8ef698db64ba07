// The tag beside the top index, after a reset.
ghost use Rattle.std.specs.Prelude.{◌≡◌, ◌%◌};
ghost use Rattle.word.specs.Tag.{next_tag};

// The tag after g, in width bits; at 16 bits, and for a width above, it goes round as a u16 does.
#[tactic(auto, using(word::proofs::TagLaws::next_narrow, word::proofs::TagLaws::next_wide))]
pub(crate) fn next_tag(width: u8, g: u16) -> u16
    ensures { result ≡ next_tag width g % 65536 }
{
    let up = g.wrapping_add(1);
    if width < 16 {
        let tags = 1u16 << width;
        up % tags
    } else {
        up
    }
}
