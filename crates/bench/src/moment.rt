// The entry of a finished call, with its moment: document 01, "The log".
ghost use Rattle.std.specs.Prelude.{◌≡◌};
ghost use Rattle.records.specs.Inner.Records.{process_in};
ghost use Rattle.steps.specs.Packed.{top_of};
ghost use Rattle.bench.specs.Inner.Layout.{ended_in};
ghost use Rattle.runs.specs.Moment.{pushed_node, entry as entry_of, nil_moment, take_moment, node_entry, nil_entry, ended as ended_of};

use crate::turn::Turn;
use call_log::{Entry, NO_MOMENT, What};
use records::is_take;
use runfile::Call;
use steps::Next;

// 0 and NO_MOMENT stand for no node and no moment, as in the bytes of the log: definitions `pushed_node` and `entry` of runs/specs/Moment.antt take numbers.
fn pushed_node(call: Call) -> u16
    ensures { result ≡ pushed_node call }
{
    match call {
        Call::Push(node) => node,
        Call::Pop | Call::Take(_) => 0,
    }
}

impl Turn {
    fn entry(self, what: What, node: u16, moment: u16) -> Entry
        ensures { result ≡ entry_of self.p self.n (process_in self.of) what node moment }
    {
        Entry {
            process: self.p,
            queue: self.of.queue_of(self.p),
            kind: what.kind(),
            result: what.result(),
            node,
            start: self.of.start,
            end: self.n,
            moment,
        }
    }

    // A bottom pop with NIL: at B1, 2 × B1; at B7, 2 × B2 + 1.
    fn nil_moment(self) -> u16
        ensures { result ≡ nil_moment self.n (process_in self.of) }
    {
        if self.of.stage.past_b2() {
            2 * self.of.b2 + 1
        } else {
            2 * self.n
        }
    }

    // A top pop with a node: 2 × T4, or 2 × B2 of the owner that was popping that node.
    fn take_moment(self) -> u16
        ensures { result ≡ take_moment self.n (process_in self.owner) (top_of self.queue.word.age.word) }
    {
        if self.owner.stage.pops_slot(self.queue.word.age.top()) {
            2 * self.owner.b2
        } else {
            2 * self.n
        }
    }

    // The entry of a pop with a node.
    fn node_entry(self, node: u16) -> Entry
        ensures { result ≡ node_entry self.p self.n (process_in self.of) (process_in self.owner) (top_of self.queue.word.age.word) node }
    {
        if is_take(self.of.call) {
            self.entry(What::TopNode, node, self.take_moment())
        } else {
            self.entry(What::BottomNode, node, 2 * self.of.b2)
        }
    }

    // The entry of a pop with NIL.
    fn nil_entry(self) -> Entry
        ensures { result ≡ nil_entry self.p self.n (process_in self.of) }
    {
        if is_take(self.of.call) {
            self.entry(What::TopNil, 0, NO_MOMENT)
        } else {
            self.entry(What::BottomNil, 0, self.nil_moment())
        }
    }

    // What the turn ends.
    pub(crate) fn ended(self, next: Next) -> Option<Entry>
        ensures { ended_in result ≡ ended_of self.p self.n (process_in self.of) (process_in self.owner) (top_of self.queue.word.age.word) next }
    {
        let node = pushed_node(self.of.call);
        match next {
            Next::Going(_) => None,
            Next::Done => Some(self.entry(What::Pushed, node, 2 * self.n)),
            Next::Node(x) => Some(self.node_entry(x)),
            Next::Nil => Some(self.nil_entry()),
            Next::Lost => Some(self.entry(What::TopLost, 0, NO_MOMENT)),
            Next::Full => Some(self.entry(What::Full, node, NO_MOMENT)),
        }
    }
}
