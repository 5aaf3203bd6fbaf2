#![tactic(auto)]
// Gathering acks: the sequences of packets that arrived, kept as ranges until a packet names them to
// the other side. At most 64 ranges are kept, rising, with at least one number missing between two.
ghost use Rattle.std.specs.Prelude.{◌≡◌, false, List, [], ◌+◌, ◌≤◌, ◌<◌, length};
ghost use Rattle.words.specs.Sizes.{LIMIT};
ghost use Rattle.packet_ack.specs.declared.Range.{Range};
ghost use Rattle.pending_acks.specs.Gather.{range, Valid, Rising, ranges_of, gatherer, inserted, gathered, AddGives, reply, reply_of, PacketGives};
ghost use Rattle.pending_acks.specs.Steps.{moved, Placed, starts_at_of, Joined, Opened, SpotFor};

use packet_ack::{Ack, RANGES, Range};
use std::marker::Model;
use words::{After, LIMIT, Refusal, Sequence};

// What stands in the table behind the ranges.
const BLANK: Range = Range { start: 0, end: 0 };

// The ranges, the lowest first, how many they are (a count beside a table, since all memory is fixed), and
// whether one was ever dropped.
#[derive(Clone, Copy)]
pub struct PendingAcks {
    count: usize,
    dropped: bool,
    ranges: [Range; RANGES],
}

// A contract sees its fields, of which `Valid` is always true.
impl Model for PendingAcks {
    ghost use Rattle.pending_acks.specs.State.{State};

    ghost Value = { State };

    ghost use Rattle.pending_acks.specs.Gather.{Valid};
    ghost use Rattle.pending_acks.specs.Fields.{state_of, fields_of};

    ghost view = { state_of };

    ghost invariant = { λ a. Valid (state_of a) };

    ghost inverse = { fields_of };
}

// Whether a sequence was added, and the ranges then.
pub type Added = After<Result<(), Refusal>, PendingAcks>;

// Where a sequence goes.
#[derive(Clone, Copy)]
enum Spot {
    // into a range that names it already
    Named,
    // just above the k-th range
    Above(usize),
    // just below the k-th range
    Below(usize),
    // between the k-th range and the next, and touches both
    Joins(usize),
    // apart from all, above k of them
    Opens(usize),
}

impl PendingAcks {
    // Names nothing yet.
    pub fn new() -> PendingAcks
        ensures { (result ≡ gatherer [] false) × Valid result }
    {
        PendingAcks {
            count: 0,
            dropped: false,
            ranges: [BLANK; RANGES],
        }
    }

    // Takes up the sequence of a packet that arrived.
    pub fn add_pending_ack(mut self, sequence: Sequence) -> Added
        ensures { AddGives self sequence.0 result }
    {
        let x = sequence.0;
        // Read before the test: what is handed back is promised to be valid on a refusal too.
        let count = self.count;
        if LIMIT <= x {
            return After {
                answer: Err(Refusal::BadNumber),
                state: self,
            };
        }
        let spot = find_spot(&self.ranges[..count], x);
        self.take_up(spot, x);
        After {
            answer: Ok(()),
            state: self,
        }
    }

    // Whether a sequence is named: the ranges are halved until one is left, and the last that starts at or below it tells.
    pub fn is_named(self, sequence: Sequence) -> Result<bool, Refusal>
        ensures { reply_of result ≡ reply (ranges_of self) sequence.0 }
    {
        let x = sequence.0;
        if LIMIT <= x {
            return Err(Refusal::BadNumber);
        }
        let count = self.count;
        let k = halved(&self.ranges[..count], x);
        if k == 0 {
            return Ok(false);
        }
        Ok(x < self.ranges[k - 1].end)
    }

    // How many ranges there are.
    pub fn count(self) -> usize
        ensures { result ≡ length (ranges_of self) }
    {
        self.count
    }

    // Whether a range was ever dropped.
    pub fn dropped(self) -> bool
        ensures { result ≡ self.dropped }
    {
        self.dropped
    }

    // Writes the packet that names all ranges to a place, or refuses and changes nothing.
    pub fn to_bytes(self, out: &mut [u8], at: usize, sequence: Sequence) -> Result<usize, Refusal>
        ensures { PacketGives self sequence.0 at out.old out.new result }
    {
        let count = self.count;
        let packet = Ack { sequence, count };
        packet_ack::put_ack(out, at, packet, &self.ranges[..count])
    }

    // Names a sequence too, at the spot where it goes.
    fn take_up(&mut self, spot: Spot, x: u64)
        requires { (x < LIMIT) × SpotFor (ranges_of self.old) x spot }
        ensures { self.new ≡ gathered (inserted x (ranges_of self.old)) self.old.dropped }
    {
        // Opened before the arms: what is always true of the ranges bounds the index.
        let _ = &self.ranges;
        match spot {
            Spot::Named => {}
            Spot::Above(k) => self.ranges[k].end = x + 1,
            Spot::Below(k) => self.ranges[k].start = x,
            Spot::Joins(k) => self.join(k),
            Spot::Opens(k) => self.open(k, x),
        }
    }

    // The k-th range and the next as one.
    fn join(&mut self, k: usize)
        requires { k + 1 < self.old.count }
        ensures { (rs : List Range) → Joined (ranges_of self.old) rs k → self.new ≡ gatherer rs self.old.dropped }
    {
        let last = self.count - 1;
        self.ranges[k].end = self.ranges[k + 1].end;
        move_down(&mut self.ranges, k + 1, last, BLANK);
        self.count = last;
    }

    // One range more, of a sequence alone, above k others. A 65th drops the lowest, which may be the newcomer.
    fn open(&mut self, k: usize, x: u64)
        requires { (x < LIMIT) × Opened (ranges_of self.old) (inserted x (ranges_of self.old)) k (range x (x + 1)) }
        ensures { self.new ≡ gathered (inserted x (ranges_of self.old)) self.old.dropped }
    {
        let newcomer = Range {
            start: x,
            end: x + 1,
        };
        let count = self.count;
        if count < RANGES {
            move_up(&mut self.ranges, count, k, newcomer);
            self.count = count + 1;
            return;
        }
        self.dropped = true;
        if 0 < k {
            move_down(&mut self.ranges, 0, k - 1, newcomer);
        }
    }
}

// How many ranges start at or below a sequence. One that is not below the highest range's start needs no search.
fn find_place(ranges: &[Range], x: u64) -> usize
    requires { Rising 0 ranges.now }
    ensures { Placed ranges.now x result }
{
    let n = ranges.len();
    if n == 0 || ranges[n - 1].start <= x {
        return n;
    }
    halved(ranges, x)
}

// The same, with no look at the highest first: the ranges are halved until one is left.
fn halved(ranges: &[Range], x: u64) -> usize
    requires { Rising 0 ranges.now }
    ensures { Placed ranges.now x result }
{
    ranges.partition_point(|r| r.start <= x)
}

// Whether there is a k-th range, and it starts at a sequence.
fn starts_at(ranges: &[Range], k: usize, x: u64) -> bool
    ensures { result ≡ starts_at_of ranges.now k x }
{
    k < ranges.len() && ranges[k].start == x
}

// Where a sequence goes.
fn find_spot(ranges: &[Range], x: u64) -> Spot
    requires { Rising 0 ranges.now × (x < LIMIT) }
    ensures { SpotFor ranges.now x result }
{
    let k = find_place(ranges, x);
    let touches = starts_at(ranges, k, x + 1);
    if 0 < k {
        let end = ranges[k - 1].end;
        if x < end {
            return Spot::Named;
        }
        if x == end {
            if touches {
                return Spot::Joins(k - 1);
            }
            return Spot::Above(k - 1);
        }
    }
    if touches {
        return Spot::Below(k);
    }
    Spot::Opens(k)
}

// The ranges after `from`, as far as `to`, move down by one, and another takes the place at `to`.
fn move_down(table: &mut [Range], from: usize, to: usize, r: Range)
    requires { (from ≤ to) × (to < length table.old) }
    ensures { table.new ≡ moved from to r table.old }
{
    table.copy_within(from + 1..to + 1, from);
    table[to] = r;
}

// The ranges before `from`, as far as `to`, move up by one, and another takes the place at `to`. A function for each
// way: one for both would ask which way in its body.
fn move_up(table: &mut [Range], from: usize, to: usize, r: Range)
    requires { (to ≤ from) × (from < length table.old) }
    ensures { table.new ≡ moved from to r table.old }
{
    table.copy_within(to..from, to + 1);
    table[to] = r;
}
