// Rule 1: one pass in file order, each entry by itself.
ghost use Rattle.std.specs.Prelude.{◌≡◌, not, position};
ghost use Rattle.call_log.specs.Decode.{first_entry};
ghost use Rattle.rules.specs.Rules.{keeps1};

use call_log::{ENTRY_LENGTH, Entry};
use fields::keeps_fields;

// The first entry that breaks rule 1.
pub(crate) fn first_wrong(entries: &[[u8; ENTRY_LENGTH]], p: u8) -> Option<usize>
    ensures { result ≡ position (λ bytes. not (keeps1 p (first_entry bytes))) entries.now }
{
    entries
        .iter()
        .position(|bytes| !keeps_fields(p, Entry::from(bytes)))
}
