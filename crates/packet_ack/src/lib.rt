#![tactic(auto)]
// Packets of acknowledgements, type 4, read and written. Ranges stand in a lent table of records,
// half-open and rising. A packet says them from the highest down.
//
// The core works on numbers and on records by value. Three thin functions walk the table:
// `fill_ranges`, `judge_ranges` and `write_ranges`.
ghost use Rattle.std.specs.Prelude.{◌≡◌, ◌+◌, ◌-◌, ◌≤◌, ◌<◌, length};
ghost use Rattle.words.specs.Sizes.{LIMIT};
ghost use Rattle.words.specs.Lists.{splice, reached};
ghost use Rattle.octets.specs.Varint.{var_len};
ghost use Rattle.octets.specs.Writer.{put_of, left};
ghost use Rattle.packet_ack.specs.Ack.{RANGES, lower, lowers, ack, judged, tabled, told, read_of};
ghost use Rattle.packet_ack.specs.Write.{sayable, lowers_bytes, listed, ack_bytes, put_ack};
ghost use Rattle.packet_ack.specs.Steps.{lower_of, highest, highest_of, ended, walk_of, lower_spot_of, filled_from, FindGives};
ghost use Rattle.packet_ack.specs.Steps.{unjudged_in, begun, stepped, judged_next, below, start_bytes, range_len_of, range_bytes, front_len, front_bytes, gap_below, pen_below, Writable, JudgedOf, FrontGives};

use words::{LIMIT, Refusal, Sequence};

// The first byte of every packet of this kind.
const TYPE: u8 = 4;

// Records of a table that goes by value.
pub const RANGES: usize = 64;

// The numbers from `start` up to, and without, `end`. In C's layout, so that a caller in another language lends records too.
#[repr(C)]
#[derive(Clone, Copy, Debug, PartialEq, Eq)]
pub struct Range {
    pub start: u64,
    pub end: u64,
}

// A range that is read, and the place after it, where the range below it stands if there is one.
#[derive(Clone, Copy, Debug, PartialEq, Eq)]
pub struct Spot {
    pub range: Range,
    pub next: usize,
}

// What a packet says beside its ranges, and how many they are.
#[derive(Clone, Copy, Debug, PartialEq, Eq)]
pub struct Ack {
    pub sequence: Sequence,
    pub count: usize,
}

// A packet that is read, the place after it, and the highest range, from which its table is filled.
#[derive(Clone, Copy, Debug, PartialEq, Eq)]
pub struct Found {
    pub ack: Ack,
    pub next: usize,
    pub top: Spot,
}

// The highest range, with the place after what is said of it, and how many are lower.
#[derive(Clone, Copy)]
struct Highest {
    top: Spot,
    lower: u64,
}

// What is known of the ranges judged so far, from the highest down. What is spare is right only while they rise;
// where they don't, they are refused for that, whatever the room.
#[derive(Clone, Copy)]
pub struct Judgement {
    pub sayable: bool,
    pub rising: bool,
    // the highest of them, if any is judged yet
    pub top: Option<Range>,
    // where the lowest of them starts
    pub start: u64,
    // what they leave of the room
    pub spare: u64,
}

// Where the next lower range is written, and where the range above it starts.
#[derive(Clone, Copy, Debug, PartialEq, Eq)]
pub struct Pen {
    pub at: usize,
    pub above: u64,
}

// What is still to be written of a packet, so many ranges by a pen, and the place after the whole of it.
#[derive(Clone, Copy, Debug, PartialEq, Eq)]
pub struct Front {
    pub pen: Pen,
    pub left: usize,
    pub next: usize,
}

// Reads the range below one that is read.
fn read_lower(s: &[u8], above: Spot) -> Result<Spot, Refusal>
    ensures { lower_of result ≡ lower above.range.start s.now above.next }
{
    let start = above.range.start;
    let (gap, a) = octets::get_varint(s, above.next)?;
    if start < 2 + gap {
        return Err(Refusal::InvalidAckRange);
    }
    let last = start - gap - 2;
    let (size, next) = octets::get_varint(s, a)?;
    if last < size {
        return Err(Refusal::InvalidAckRange);
    }
    let range = Range {
        start: last - size,
        end: last + 1,
    };
    Ok(Spot { range, next })
}

// Reads the highest range at a place, and how many ranges are lower.
fn read_highest(s: &[u8], at: usize) -> Result<Highest, Refusal>
    ensures { highest_of result ≡ highest s.now at }
{
    let (last, a) = octets::get_varint(s, at)?;
    let (size, b) = octets::get_varint(s, a)?;
    let (lower, next) = octets::get_varint(s, b)?;
    if last < size {
        return Err(Refusal::InvalidAckRange);
    }
    let range = Range {
        start: last - size,
        end: last + 1,
    };
    let top = Spot { range, next };
    Ok(Highest { top, lower })
}

// The place after n lower ranges. Each takes two bytes or more, so a claim of too many ends with the input.
fn walk_lowers(s: &[u8], top: Spot, n: u64) -> Result<usize, Refusal>
    ensures { walk_of result ≡ ended (lowers n top.range.start s.now top.next) }
{
    let mut c = top;
    for _ in 0..n {
        c = read_lower(s, c)?;
    }
    Ok(c.next)
}

// The range below one that is read, which was walked before: it is never refused.
fn lower_spot(s: &[u8], c: Spot) -> Spot
    ensures { result ≡ lower_spot_of s.now c }
{
    read_lower(s, c).unwrap_or(c)
}

// Fills the first n records with the ranges from `top` down, from the last record down.
pub fn fill_ranges(ranges: &mut [Range], s: &[u8], top: Spot, n: usize)
    requires { n ≤ length ranges.old }
    ensures { ranges.new ≡ filled_from n s.now top ranges.old }
{
    let mut c = top;
    for i in (0..n).rev() {
        ranges[i] = c.range;
        c = lower_spot(s, c);
    }
}

// Reads what follows the type byte, from a place on, for a table of so many records; `fill_ranges` then fills them.
pub fn find_ack(s: &[u8], at: usize, room: usize) -> Result<Found, Refusal>
    ensures { FindGives s.now at room result }
{
    let (seq, a) = octets::get_varint(s, at)?;
    let highest = read_highest(s, a)?;
    let next = walk_lowers(s, highest.top, highest.lower)?;
    let n = highest.lower as usize;
    if room <= n {
        return Err(Refusal::TableFull);
    }
    let ack = Ack {
        sequence: Sequence(seq),
        count: n + 1,
    };
    let top = highest.top;
    Ok(Found { ack, next, top })
}

// Reads what follows the type byte, from a place on, and fills the table if all is good and it is large enough.
pub fn read_ack(s: &[u8], at: usize, ranges: &mut [Range]) -> Result<(Ack, usize), Refusal>
    ensures { (read_of result ≡ told (judged (ack s.now at) (length ranges.old)))
        × (ranges.new ≡ tabled (judged (ack s.now at) (length ranges.old)) ranges.old) }
{
    let found = find_ack(s, at, ranges.len())?;
    fill_ranges(ranges, s, found.top, found.ack.count);
    Ok((found.ack, found.next))
}

impl Range {
    // Whether it can be said: it starts below 2^62 and ends not above it.
    fn is_sayable(self) -> bool
        ensures { result ≡ sayable self }
    {
        self.start < LIMIT && self.end <= LIMIT
    }

    // How many bytes it takes: what is said before its size, and its size less one.
    fn encoded_len(self, before: u64) -> u64
        ensures { result ≡ range_len_of before self }
    {
        let size = self.end.saturating_sub(1).saturating_sub(self.start);
        (octets::form_len(before) + octets::form_len(size)) as u64
    }
}

// Nothing is judged yet, and there is some room.
pub fn unjudged(room: usize) -> Judgement
    ensures { result ≡ unjudged_in room }
{
    Judgement {
        sayable: true,
        rising: false,
        top: None,
        start: 0,
        spare: room as u64,
    }
}

// Judges the highest range.
fn judge_highest(r: Range, room: u64) -> Judgement
    ensures { result ≡ begun room r }
{
    let len = r.encoded_len(r.end.saturating_sub(1));
    Judgement {
        sayable: r.is_sayable(),
        rising: r.start < r.end,
        top: Some(r),
        start: r.start,
        spare: room.saturating_sub(len),
    }
}

// Judges one range more, below those judged so far.
fn judge_lower(j: Judgement, r: Range) -> Judgement
    ensures { result ≡ stepped j r }
{
    let gap = j.start.saturating_sub(r.end).saturating_sub(1);
    let len = r.encoded_len(gap);
    Judgement {
        sayable: j.sayable & r.is_sayable(),
        rising: j.rising & (r.end < j.start) & (r.start < r.end),
        top: j.top,
        start: r.start,
        spare: j.spare.saturating_sub(len),
    }
}

// Judges the highest range, or one more.
fn judge_range(j: Judgement, r: Range) -> Judgement
    ensures { result ≡ judged_next j r }
{
    match j.top {
        None => judge_highest(r, j.spare),
        Some(_) => judge_lower(j, r),
    }
}

// Judges the ranges of the first n records, from the highest down.
pub fn judge_ranges(ranges: &[Range], n: usize, from: Judgement) -> Judgement
    requires { n ≤ length ranges.now }
    ensures { result ≡ reached judged_next from (below ranges.now n) }
{
    let mut j = from;
    for i in (0..n).rev() {
        j = judge_range(j, ranges[i]);
    }
    j
}

// Writes the type byte and the sequence, for which there is room, and answers the place after them.
fn write_start(out: &mut [u8], at: usize, seq: u64) -> usize
    requires { (seq < LIMIT) × (at + (1 + var_len seq) ≤ length out.old) }
    ensures { (result ≡ at + (1 + var_len seq)) × (out.new ≡ splice at (start_bytes seq) out.old) }
{
    out[at] = TYPE;
    octets::write_varint(out, at + 1, seq)
}

// Writes a range, for which there is room: what is said before its size, and its size less one.
fn write_range(out: &mut [u8], at: usize, before: u64, r: Range) -> usize
    requires before_bound { (before < LIMIT) × (r.start < r.end) × (r.end ≤ LIMIT) }
    requires end_in_bounds { at + range_len_of before r ≤ length out.old }
    ensures { (result ≡ at + range_len_of before r) × (out.new ≡ splice at (range_bytes before r) out.old) }
{
    let a = octets::write_varint(out, at, before);
    octets::write_varint(out, a, r.end - 1 - r.start)
}

// Writes all of a packet but its lower ranges, of which there are n, where there is room.
fn write_front(out: &mut [u8], at: usize, seq: u64, top: Range, n: usize) -> usize
    requires seq_bound { (seq < LIMIT) × (top.start < top.end) × (top.end ≤ LIMIT) × (n < LIMIT) }
    requires n_in_bounds { at + front_len seq top n ≤ length out.old }
    ensures { (result ≡ at + front_len seq top n) × (out.new ≡ splice at (front_bytes seq top n) out.old) }
{
    let a = write_start(out, at, seq);
    let b = write_range(out, a, top.end - 1, top);
    octets::write_varint(out, b, n as u64)
}

// Writes a lower range, for which there is room.
fn write_lower(out: &mut [u8], pen: Pen, r: Range) -> Pen
    requires { (r.start < r.end) × (r.end < pen.above) × (pen.above ≤ LIMIT) × (pen.at + range_len_of (gap_below pen r) r ≤ length out.old) }
    ensures { (result ≡ pen_below pen r) × (out.new ≡ splice pen.at (range_bytes (gap_below pen r) r) out.old) }
{
    let at = write_range(out, pen.at, pen.above - r.end - 1, r);
    let above = r.start;
    Pen { at, above }
}

// Writes the ranges of the first n records, which were judged, from the highest down.
pub fn write_ranges(out: &mut [u8], ranges: &[Range], n: usize, pen: Pen)
    requires { Writable ranges.now n pen (length out.old) }
    ensures { out.new ≡ splice pen.at (lowers_bytes pen.above (below ranges.now n)) out.old }
{
    let mut p = pen;
    for i in (0..n).rev() {
        p = write_lower(out, p, ranges[i]);
    }
}

// Writes all of a packet but its lower ranges, or refuses and changes nothing. Its ranges stand in a table of `held`
// records and were judged; `write_ranges` then writes the others.
pub fn put_front(
    out: &mut [u8],
    at: usize,
    packet: Ack,
    held: usize,
    j: Judgement,
) -> Result<Front, Refusal>
    requires { JudgedOf j packet.count held (length out.old - at) }
    ensures { FrontGives packet.sequence.0 packet.count held at j out.old out.new result }
{
    let count = packet.count;
    if held < count {
        return Err(Refusal::BadStore);
    }
    let seq = packet.sequence.0;
    if LIMIT <= seq {
        return Err(Refusal::BadNumber);
    }
    if !j.sayable {
        return Err(Refusal::BadNumber);
    }
    let Some(top) = j.top else {
        return Err(Refusal::InvalidAckRange);
    };
    if !j.rising {
        return Err(Refusal::InvalidAckRange);
    }
    let left = count - 1;
    let head = (octets::form_len(seq) + octets::form_len(left as u64)) as u64;
    let spare = j.spare;
    // what is spare has to hold these and the type byte
    if spare <= head {
        return Err(Refusal::BufferTooShort);
    }
    let at = write_front(out, at, seq, top, left);
    let above = top.start;
    Ok(Front {
        pen: Pen { at, above },
        left,
        next: out.len() - (spare - head - 1) as usize,
    })
}

// Writes a packet whose ranges stand in a table, or refuses and changes nothing.
pub fn put_ack(out: &mut [u8], at: usize, packet: Ack, ranges: &[Range]) -> Result<usize, Refusal>
    ensures { (put_of result ≡ put_ack packet.sequence.0 ranges.now packet.count at (length out.old))
        × (out.new ≡ left (put_of result) at (ack_bytes packet.sequence.0 (listed ranges.now 0 packet.count)) out.old) }
{
    let count = packet.count;
    if ranges.len() < count {
        return Err(Refusal::BadStore);
    }
    let room = out.len().saturating_sub(at);
    let j = judge_ranges(ranges, count, unjudged(room));
    let front = put_front(out, at, packet, ranges.len(), j)?;
    write_ranges(out, ranges, front.left, front.pen);
    Ok(front.next)
}
