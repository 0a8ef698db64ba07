// What a refused file gives.
ghost use Rattle.records.specs.Inner.Records.{Refuses};

use crate::TABLE_SIZE;

// A refusal gives its number, zero counts, a zero table and an empty part.
// The number stays a u8: the function is public (docs/PROMISES.md), and a `Refusal` in its place would ask more of a caller.
pub fn refuse(number: u8, report: &mut [u16; 4], table: &mut [u16; TABLE_SIZE]) -> usize
    ensures { Refuses number result report.new table.new }
{
    *report = [u16::from(number), 0, 0, 0];
    *table = [0; TABLE_SIZE];
    0
}
