#![tactic(auto)]
// Calls on the two receivers, the ordered reliable one and the unreliable one.
ghost use Rattle.std.specs.Prelude.{◌≡◌};
ghost use Rattle.arguments.specs.Arguments.{leaves, taken_apart_of};
ghost use Rattle.session_receive.specs.Calls.{calls_of};
ghost use Rattle.session_receive.specs.Sound.{Sound, Whole};

use answers::lent::Stores;
use answers::{Call, lent, packets};
use arguments::Read;
use channel::Store;
use packet::Packet;
use packet_slice::Slice;
use receive_reliable::ReceiveChannelReliable;
use receive_unreliable::ReceiveChannelUnreliable;
use std::marker::Model;
use words::{MessageId, Refusal, SliceIndex};

// Both receivers, and how much of the stores of each is lent.
#[derive(Clone, Copy)]
pub struct Receivers {
    pub reliable: ReceiveChannelReliable,
    pub unreliable: ReceiveChannelUnreliable,
    pub reliable_lent: Stores,
    pub unreliable_lent: Stores,
}

// A contract sees their fields, of which `Sound` is always true.
impl Model for Receivers {
    ghost use Rattle.session_receive.specs.State.{State};

    ghost Value = { State };

    ghost use Rattle.session_receive.specs.Sound.{Sound};
    ghost use Rattle.session_receive.specs.Fields.{state_of, fields_of};

    ghost view = { state_of };

    ghost invariant = { λ a. Sound (state_of a) };

    ghost inverse = { fields_of };
}

// The receivers after a call, and the place after the answer.
// A place and no answer stands beside the state, so it is not `After`.
#[derive(Clone, Copy)]
pub struct Told {
    pub receivers: Receivers,
    pub at: usize,
}

// A call on its way: which receiver it is for, the number of the call, the line, and the place for its
// answer. A line that is read tells a call by its place in the list of `read`. What both receivers have alike stands
// once, by a bool that the script's word gives: a trait of both would need their promises alike, and they differ.
#[derive(Clone, Copy)]
struct Turn {
    reliable: bool,
    k: usize,
    n: u64,
    at: usize,
}

// What a call sees of the two stores of a receiver.
#[derive(Drop)]
struct Buffers<'a> {
    small: &'a mut [u8],
    lanes: &'a mut [u8],
}

// What a call answers, unless it is refused.
#[derive(Clone, Copy)]
enum Answer {
    Ready,
    Taken,
    Ignored,
    Dropped,
    Discarded(usize),
    Ordered(Option<receive_reliable::Message>),
    Message(Option<receive_unreliable::Message>),
    Lent(Stores),
    Digest(u64, u64),
    Usage,
}

impl From<receive_reliable::Arrival> for Answer {
    fn from(a: receive_reliable::Arrival) -> Answer {
        match a {
            receive_reliable::Arrival::Taken => Answer::Taken,
            receive_reliable::Arrival::Ignored => Answer::Ignored,
        }
    }
}

impl From<receive_unreliable::Arrival> for Answer {
    fn from(a: receive_unreliable::Arrival) -> Answer {
        match a {
            receive_unreliable::Arrival::Taken => Answer::Taken,
            receive_unreliable::Arrival::Dropped => Answer::Dropped,
        }
    }
}

// What a packet holds for a receiver: so many messages, or a piece.
#[derive(Clone, Copy)]
enum Contents {
    Messages(usize),
    Piece(Slice),
}

// The receivers at first.
#[tactic(auto, unfolding(crate::specs::Sound::Sound))]
pub fn start() -> Receivers
    ensures { Sound result × Whole result.reliable_lent × Whole result.unreliable_lent }
{
    Receivers {
        reliable: ReceiveChannelReliable::new(lent::whole()).state,
        unreliable: ReceiveChannelUnreliable::new(lent::whole()).state,
        reliable_lent: whole(),
        unreliable_lent: whole(),
    }
}

// All of a receiver's stores.
fn whole() -> Stores
    ensures { Whole result }
{
    Stores {
        small: memory::SMALL,
        lanes: memory::LANES,
    }
}

// The calls, in the order of the numbers below. Only the unreliable receiver discards.
pub fn read(reliable: bool, s: &[u8], at: usize, numbers: &mut [u64], bytes: &mut [u8]) -> Read
    ensures { leaves result numbers.new bytes.new ≡ taken_apart_of (calls_of reliable) s.now at numbers.old bytes.old }
{
    if reliable {
        return arguments::taken_apart(
            b"new nnnn message nb slice nnnb look - take - lend SL digest - usage - packet b deliver n",
            s,
            at,
            numbers,
            bytes,
        );
    }
    arguments::taken_apart(
        b"new nnnn message b slice nnnnb look - take - lend SL digest - usage - packet bn deliver nn discard n",
        s,
        at,
        numbers,
        bytes,
    )
}

const NEW: usize = 0;

const MESSAGE: usize = 1;

const SLICE: usize = 2;

const LOOK: usize = 3;

const TAKE: usize = 4;

const LEND: usize = 5;

const DIGEST: usize = 6;

const USAGE: usize = 7;

const PACKET: usize = 8;

const DELIVER: usize = 9;

const DISCARD: usize = 10;

// Makes a call and answers it. The sender of the same kind left so many packets in `out`, by their table;
// one of them is delivered as a packet with the numbers that are left.
pub fn call(
    mut r: Receivers,
    reliable: bool,
    c: Call,
    packets: usize,
    numbers: &[u64],
    bytes: &[u8],
    out: &[u8],
    table: &[u64],
    messages: &mut [u64],
    ranges: &mut [u64],
    small: &mut [u8],
    lanes: &mut [u8],
    page: &mut [u8],
) -> Told
    ensures { Sound result.receivers }
{
    let t = Turn {
        reliable,
        k: c.k,
        n: c.n,
        at: c.at,
    };
    if c.k != DELIVER {
        let at = made(
            &mut r, t, numbers, bytes, messages, ranges, small, lanes, page,
        );
        return after(&r, at);
    }
    let i = page::size(numbers, 0);
    if packets <= i {
        let at = page::text(page, c.at, b"bad line: no such packet\n");
        return after(&r, at);
    }
    let t = Turn { k: PACKET, ..t };
    let s = kept(reliable, i, out, table);
    let left = page::words_from(numbers, 1);
    let at = made(&mut r, t, left, s, messages, ranges, small, lanes, page);
    after(&r, at)
}

// The receivers are looked into here, so that the contract says what is always true of them.
fn after(r: &Receivers, at: usize) -> Told
    ensures { Sound result.receivers }
{
    let _ = &r.reliable_lent;
    Told { receivers: *r, at }
}

// The i-th packet of the last round of the sender of the same kind.
fn kept<'a>(reliable: bool, i: usize, out: &'a [u8], table: &[u64]) -> &'a [u8] {
    let o = memory::span_of(out, one(reliable, 0, memory::SU_OUT), memory::OUT);
    let w = memory::span_of(table, one(reliable, 0, memory::SU_TABLE), memory::TABLE);
    packets::kept(&out[o.start..o.end], &table[w.start..w.end], i)
}

// The place of the reliable end, or of the other.
fn one(reliable: bool, a: usize, b: usize) -> usize {
    if reliable { a } else { b }
}

// How much of the stores a call sees: what is lent; a take and a digest see all.
fn seen(r: &Receivers, t: Turn) -> Stores {
    if t.k == TAKE || t.k == DIGEST {
        return whole();
    }
    if t.reliable {
        return r.reliable_lent;
    }
    r.unreliable_lent
}

// Answers a call with what it sees of the stores.
fn made(
    r: &mut Receivers,
    t: Turn,
    numbers: &[u64],
    bytes: &[u8],
    messages: &mut [u64],
    ranges: &mut [u64],
    small: &mut [u8],
    lanes: &mut [u8],
    page: &mut [u8],
) -> usize {
    let n = seen(r, t);
    let s = memory::span_of(
        small,
        one(t.reliable, memory::RR_SMALL, memory::RU_SMALL),
        n.small,
    );
    let l = memory::span_of(
        lanes,
        one(t.reliable, memory::RR_LANES, memory::RU_LANES),
        n.lanes,
    );
    let mut stores = Buffers {
        small: &mut small[s.start..s.end],
        lanes: &mut lanes[l.start..l.end],
    };
    if t.k == PACKET {
        let time = page::word(numbers, 0);
        return packet(r, t, time, bytes, messages, ranges, &mut stores, page);
    }
    plain(r, t, numbers, bytes, &mut stores, page)
}

// Answers a call that hands no packet over. The message that it shows or hands out is the one that waited.
fn plain(
    r: &mut Receivers,
    t: Turn,
    numbers: &[u64],
    bytes: &[u8],
    stores: &mut Buffers,
    page: &mut [u8],
) -> usize {
    let before = *r;
    let answer = called(r, t, numbers, bytes, stores);
    let s = waiting(before, t.reliable, stores);
    let a = say_answer(page, t.at, answer, s);
    used(r, t.reliable, page, a)
}

// Makes a call, and says nothing yet.
fn called(
    r: &mut Receivers,
    t: Turn,
    numbers: &[u64],
    bytes: &[u8],
    stores: &mut Buffers,
) -> Result<Answer, Refusal> {
    match t.k {
        NEW => new(r, t.reliable, numbers),
        LEND => Ok(lend(r, t.reliable, numbers)),
        DIGEST => Ok(Answer::Digest(
            say::digest_bytes(stores.small),
            say::digest_bytes(stores.lanes),
        )),
        USAGE => Ok(Answer::Usage),
        DISCARD => discard(r, page::word(numbers, 0)),
        k => {
            if t.reliable {
                return ordered(r, k, numbers, bytes, stores.small, stores.lanes);
            }
            unordered(r, k, numbers, bytes, stores.small, stores.lanes)
        }
    }
}

// Hands a message or a piece to the reliable receiver, or shows or takes the one that waits. The stores come one
// by one: of a struct behind a reference, the check has no rule for a field that is changed beside one that is read.
#[tactic(auto, unfolding(crate::specs::Sound::Sound))]
fn ordered(
    r: &mut Receivers,
    k: usize,
    numbers: &[u64],
    bytes: &[u8],
    small: &mut [u8],
    lanes: &mut [u8],
) -> Result<Answer, Refusal> {
    let id = MessageId(page::word(numbers, 0));
    match k {
        MESSAGE => {
            let a = r.reliable.process_message(id, bytes, small, lanes);
            r.reliable = a.state;
            Ok(Answer::from(a.answer?))
        }
        SLICE => {
            let index = SliceIndex(page::word(numbers, 1));
            let num_slices = page::word(numbers, 2);
            let a = r
                .reliable
                .process_slice(id, index, num_slices, bytes, small, lanes);
            r.reliable = a.state;
            Ok(Answer::from(a.answer?))
        }
        LOOK => Ok(Answer::Ordered(r.reliable.look(small, lanes)?)),
        _ => {
            let a = r.reliable.receive_message();
            r.reliable = a.state;
            Ok(Answer::Ordered(a.answer))
        }
    }
}

// The same with the unreliable one. Its messages have no id, and its pieces a time.
#[tactic(auto, unfolding(crate::specs::Sound::Sound))]
fn unordered(
    r: &mut Receivers,
    k: usize,
    numbers: &[u64],
    bytes: &[u8],
    small: &mut [u8],
    lanes: &mut [u8],
) -> Result<Answer, Refusal> {
    match k {
        MESSAGE => {
            let a = r.unreliable.process_message(bytes, small, lanes);
            r.unreliable = a.state;
            Ok(Answer::from(a.answer?))
        }
        SLICE => {
            let id = MessageId(page::word(numbers, 0));
            let index = SliceIndex(page::word(numbers, 1));
            let num_slices = page::word(numbers, 2);
            let time = page::word(numbers, 3);
            let a = r
                .unreliable
                .process_slice(id, index, num_slices, bytes, time, small, lanes);
            r.unreliable = a.state;
            Ok(Answer::from(a.answer?))
        }
        LOOK => Ok(Answer::Message(r.unreliable.look(small, lanes)?)),
        _ => {
            let a = r.unreliable.receive_message();
            r.unreliable = a.state;
            Ok(Answer::Message(a.answer))
        }
    }
}

// A refused set-up leaves the receiver as it was.
#[tactic(auto, unfolding(crate::specs::Sound::Sound))]
fn new(r: &mut Receivers, reliable: bool, numbers: &[u64]) -> Result<Answer, Refusal> {
    let settings = lent::settings(numbers, 0);
    if reliable {
        let made = ReceiveChannelReliable::new(settings);
        made.answer?;
        r.reliable = made.state;
        return Ok(Answer::Ready);
    }
    let made = ReceiveChannelUnreliable::new(settings);
    made.answer?;
    r.unreliable = made.state;
    Ok(Answer::Ready)
}

#[tactic(auto, unfolding(crate::specs::Sound::Sound))]
fn discard(r: &mut Receivers, current_time: u64) -> Result<Answer, Refusal> {
    let d = r.unreliable.discard_incomplete_old_slices(current_time);
    r.unreliable = d.state;
    Ok(Answer::Discarded(d.answer?))
}

#[tactic(auto, unfolding(crate::specs::Sound::Sound))]
fn lend(r: &mut Receivers, reliable: bool, numbers: &[u64]) -> Answer {
    let lent = Stores {
        small: page::size(numbers, 0).min(memory::SMALL),
        lanes: page::size(numbers, 1).min(memory::LANES),
    };
    if reliable {
        r.reliable_lent = lent;
    } else {
        r.unreliable_lent = lent;
    }
    Answer::Lent(lent)
}

// The bytes of the message that waits.
fn waiting<'a>(r: Receivers, reliable: bool, stores: &'a Buffers) -> &'a [u8] {
    if reliable {
        return r.reliable.message(stores.small, stores.lanes);
    }
    r.unreliable.message(stores.small, stores.lanes)
}

// Says the memory in use.
fn used(r: &Receivers, reliable: bool, page: &mut [u8], at: usize) -> usize {
    page::line(page, at, b"usage #\n", &[usage(r, reliable) as u64])
}

fn usage(r: &Receivers, reliable: bool) -> usize {
    if reliable {
        return r.reliable.memory_usage_bytes();
    }
    r.unreliable.memory_usage_bytes()
}

// Says an answer before the memory in use.
fn say_answer(page: &mut [u8], at: usize, a: Result<Answer, Refusal>, s: &[u8]) -> usize {
    match a {
        Ok(a) => say(page, at, a, s),
        Err(e) => {
            let b = page::refusal(page, at, e);
            page::text(page, b, b"; ")
        }
    }
}

fn say(page: &mut [u8], at: usize, a: Answer, s: &[u8]) -> usize {
    match a {
        Answer::Ready => page::text(page, at, b"ready; "),
        Answer::Taken => page::text(page, at, b"taken; "),
        Answer::Ignored => page::text(page, at, b"ignored; "),
        Answer::Dropped => page::text(page, at, b"dropped; "),
        Answer::Discarded(n) => page::line(page, at, b"discarded #; ", &[n as u64]),
        Answer::Ordered(None) | Answer::Message(None) => page::text(page, at, b"nothing; "),
        Answer::Ordered(Some(m)) => {
            let b = page::line(page, at, b"message id # in ", &[m.id.0]);
            say_message(page, b, m.store, m.place, m.len, s)
        }
        Answer::Message(Some(m)) => {
            let b = page::text(page, at, b"message in ");
            say_message(page, b, m.store, m.place, m.len, s)
        }
        Answer::Lent(n) => page::line(
            page,
            at,
            b"lent small # lanes #; ",
            &[n.small as u64, n.lanes as u64],
        ),
        Answer::Digest(n, m) => page::line(page, at, b"small # lanes #; ", &[n, m]),
        Answer::Usage => at,
    }
}

fn say_message(
    page: &mut [u8],
    at: usize,
    store: Store,
    place: usize,
    len: usize,
    s: &[u8],
) -> usize {
    let a = page::text(page, at, named(store));
    let b = page::line(page, a, b" at # length # ", &[place as u64, len as u64]);
    let c = page::bytes(page, b, s);
    page::text(page, c, b"; ")
}

fn named(store: Store) -> &'static [u8] {
    match store {
        Store::Small => b"small",
        Store::Lanes => b"lanes",
    }
}

// Reads a packet and hands what is in it to the receiver. A further line answers for each message or
// for the piece, behind the number of the packet's line.
fn packet(
    r: &mut Receivers,
    mut t: Turn,
    time: u64,
    bytes: &[u8],
    messages: &mut [u64],
    ranges: &mut [u64],
    stores: &mut Buffers,
    page: &mut [u8],
) -> usize {
    let d = packets::read(bytes, messages, ranges);
    t.at = packets::decoded(page, t.at, d, messages, ranges);
    match d {
        Ok((p, _)) => {
            let c = contents_for(t.reliable, p);
            let a = say_kind(page, t.at, c);
            t.at = used(r, t.reliable, page, a);
            hand_over(r, t, c, time, bytes, messages, stores, page)
        }
        Err(_) => {
            let a = page::text(page, t.at, b"; ");
            used(r, t.reliable, page, a)
        }
    }
}

fn hand_over(
    r: &mut Receivers,
    t: Turn,
    c: Option<Contents>,
    time: u64,
    bytes: &[u8],
    messages: &[u64],
    stores: &mut Buffers,
    page: &mut [u8],
) -> usize {
    match c {
        Some(Contents::Messages(n)) => handed(r, t, n, bytes, messages, stores, page),
        Some(Contents::Piece(s)) => {
            let numbers = [s.message_id.0, s.slice_index.0, s.num_slices, time];
            let part = packets::bytes_at(bytes, s.place, s.len);
            further(r, t, SLICE, 0, &numbers, part, stores, page)
        }
        None => t.at,
    }
}

// What a packet holds, if it is for this end.
fn contents_for(reliable: bool, p: Packet) -> Option<Contents> {
    match (reliable, p) {
        (true, Packet::SmallReliable(s)) => Some(Contents::Messages(s.count)),
        (true, Packet::ReliableSlice(s)) => Some(Contents::Piece(s)),
        (false, Packet::SmallUnreliable(s)) => Some(Contents::Messages(s.count)),
        (false, Packet::UnreliableSlice(s)) => Some(Contents::Piece(s)),
        _ => None,
    }
}

// Says so if a packet is of another channel kind.
fn say_kind(page: &mut [u8], at: usize, c: Option<Contents>) -> usize {
    if c.is_none() {
        return page::text(page, at, b"; not for this end; ");
    }
    page::text(page, at, b"; ")
}

// Hands the messages of a packet over, one after the other.
fn handed(
    r: &mut Receivers,
    t: Turn,
    count: usize,
    bytes: &[u8],
    messages: &[u64],
    stores: &mut Buffers,
    page: &mut [u8],
) -> usize {
    let mut at = t.at;
    for i in 0..count {
        let id = packets::id_at(messages, i);
        let s = packets::message_at(bytes, messages, i);
        at = further(r, Turn { at, ..t }, MESSAGE, i, &[id], s, stores, page);
    }
    at
}

// Answers for the i-th message of a packet, or for its piece, in a further line.
fn further(
    r: &mut Receivers,
    mut t: Turn,
    k: usize,
    i: usize,
    numbers: &[u64],
    bytes: &[u8],
    stores: &mut Buffers,
    page: &mut [u8],
) -> usize {
    t.k = k;
    t.at = packets::numbered(page, t.at, t.n, i);
    plain(r, t, numbers, bytes, stores, page)
}
