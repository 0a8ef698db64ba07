// Where the slots of a queue lie in the one row that has those of all queues. It is no array of rows: C is known when a file is read, and theorem
// `every_state_held` has slot i of queue q at C × q + i.
ghost use Rattle.std.specs.Prelude.{◌≡◌};
ghost use Rattle.records.specs.Inner.Records.{slots_place};

// Slot 0 of queue q.
pub fn slots_place(size: u8, q: u8) -> usize
    ensures { result ≡ slots_place size q }
{
    usize::from(size) * usize::from(q)
}
