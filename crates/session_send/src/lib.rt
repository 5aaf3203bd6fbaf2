#![tactic(auto)]
// Calls on the two senders. A call first gives its answer as a value; a function of its own writes that on the page.
ghost use Rattle.std.specs.Prelude.{◌≡◌, ◌≤◌, length};
ghost use Rattle.arguments.specs.Arguments.{leaves, taken_apart_of};
ghost use Rattle.session_send.specs.Calls.{calls_of};
ghost use Rattle.session_send.specs.Sound.{Sound, Own, PartsGive, CallGives, lent_to, seen_by, beginning, whole};

use answers::Call;
use arguments::Read;
use memory::Span;
use pack::Written;
use send_reliable::{Ack, SendChannelReliable};
use send_unreliable::{Queue, SendChannelUnreliable};
use std::marker::Model;
use words::{MessageId, Refusal, Sequence, SliceIndex};

// How long the reliable sender waits before it sends again, at first.
const RESEND_TIME: u64 = 300_000_000;

// How much of its own memory a sender is lent, and how many packets of its last round stand there.
#[derive(Clone, Copy)]
pub struct Lent {
    small: usize,
    lanes: usize,
    out: usize,
    table: usize,
    packets: usize,
}

// The reliable sender, the unreliable one, and what each is lent.
#[derive(Clone, Copy)]
pub struct Senders {
    sr: SendChannelReliable,
    su: SendChannelUnreliable,
    sr_lent: Lent,
    su_lent: Lent,
}

// A contract sees the fields, of which `Sound` is always true.
impl Model for Senders {
    ghost use Rattle.session_send.specs.State.{State};

    ghost Value = { State };

    ghost use Rattle.session_send.specs.Sound.{Sound};
    ghost use Rattle.session_send.specs.Fields.{state_of, fields_of};

    ghost view = { state_of };

    ghost invariant = { λ a. Sound (state_of a) };

    ghost inverse = { fields_of };
}

// The senders after a call, and the place after its answer.
// A place and no answer stands beside the state, so it is not `After`.
#[derive(Clone, Copy)]
pub struct Told {
    pub senders: Senders,
    pub at: usize,
}

// What a call answers, if it isn't refused.
#[derive(Clone, Copy)]
enum Said {
    Ready,
    Id(u64),
    Taken,
    Dropped,
    Done,
    Unknown,
    Available(u64),
    Can(bool),
    Lent(u64, u64, u64, u64),
    Digest(u64, u64, u64, u64),
    Usage,
    Sent(Written),
}

type Answer = Result<Said, Refusal>;

// What a call sees of a sender's two stores, and of the bytes and the table for the packets of a round.
#[derive(Drop)]
struct Stores<'a> {
    small: &'a mut [u8],
    lanes: &'a mut [u8],
}

#[derive(Drop)]
struct Room<'a> {
    out: &'a mut [u8],
    table: &'a mut [u64],
}

// The senders at first.
#[tactic(auto, unfolding(crate::specs::Sound::Sound))]
pub fn start() -> Senders
    ensures { Sound result × (result.sr_lent ≡ whole) × (result.su_lent ≡ whole) }
{
    let sr = SendChannelReliable::new(0, answers::lent::whole(), RESEND_TIME);
    let su = SendChannelUnreliable::new(0, answers::lent::whole());
    Senders {
        sr: sr.state,
        su: su.state,
        sr_lent: all(),
        su_lent: all(),
    }
}

// All that a sender has.
fn all() -> Lent
    ensures { (result ≡ whole) × Own result }
{
    Lent {
        small: memory::SMALL,
        lanes: memory::LANES,
        out: memory::OUT,
        table: memory::TABLE,
        packets: 0,
    }
}

// The calls, in the order of the numbers below; those of the reliable sender alone stand last. `usage`, at 7,
// is what is left in `told`. What both senders have alike stands once, by a bool that the script's word gives: a
// trait of both would need their promises alike, and they differ.
pub fn read(reliable: bool, line: &[u8], from: usize, numbers: &mut [u64], bytes: &mut [u8]) -> Read
    ensures { leaves result numbers.new bytes.new ≡ taken_apart_of (calls_of reliable) line.now from numbers.old bytes.old }
{
    if reliable {
        return arguments::taken_apart(
            b"new cnnnnn send b round nnn available - can-send n lend SLOT digest - usage - ack n ack-slice nn",
            line,
            from,
            numbers,
            bytes,
        );
    }
    arguments::taken_apart(
        b"new cnnnn send b round nn available - can-send n lend SLOT digest - usage -",
        line,
        from,
        numbers,
        bytes,
    )
}

// The call numbers stay `usize`: `seen_by`, in the contract of `call`, names them so.
const NEW: usize = 0;

const SEND: usize = 1;

const ROUND: usize = 2;

const AVAILABLE: usize = 3;

const CAN_SEND: usize = 4;

const LEND: usize = 5;

// It sees all that a sender has.
const DIGEST: usize = 6;

const ACK: usize = 8;

const ACK_SLICE: usize = 9;

// How many packets the last round of a sender left.
pub fn packets(s: Senders, reliable: bool) -> usize
    ensures { result ≡ (lent_to s reliable).packets }
{
    if reliable {
        return s.sr_lent.packets;
    }
    s.su_lent.packets
}

// Makes a call on one of the senders and answers it. Of the memory of all ends it is lent what it sees:
// each buffer by itself, since what `CallGives` says of each is said of the caller's own.
pub fn call(
    s: Senders,
    reliable: bool,
    c: Call,
    numbers: &[u64],
    bytes: &[u8],
    small: &mut [u8],
    lanes: &mut [u8],
    out: &mut [u8],
    table: &mut [u64],
    messages: &mut [u64],
    ranges: &mut [u64],
    page: &mut [u8],
) -> Told
    ensures { CallGives reliable (seen_by s reliable c.k)
        small.old small.new lanes.old lanes.new
        out.old out.new table.old table.new result.senders }
{
    let p = parts_of(&s, reliable, c.k, small, lanes, out, table);
    answer(
        s,
        reliable,
        c,
        numbers,
        bytes,
        &mut small[p.small.start..p.small.end],
        &mut lanes[p.lanes.start..p.lanes.end],
        &mut out[p.out.start..p.out.end],
        &mut table[p.table.start..p.table.end],
        messages,
        ranges,
        page,
    )
}

// How much a call sees: what is lent, but a digest is of all.
fn seen(s: &Senders, reliable: bool, k: usize) -> Lent
    ensures { result ≡ seen_by s.now reliable k }
{
    if k == DIGEST {
        return all();
    }
    if reliable {
        return s.sr_lent;
    }
    s.su_lent
}

// Parts of the memory of all ends.
#[derive(Clone, Copy)]
struct Parts {
    small: Span,
    lanes: Span,
    out: Span,
    table: Span,
}

// Where the own memory of a sender begins, of which each has n: the reliable sender's comes first.
fn begins(reliable: bool, n: usize) -> usize
    ensures { result ≡ beginning reliable n }
{
    if reliable {
        return 0;
    }
    n
}

// What a call sees of the memory of all ends.
fn parts_of(
    s: &Senders,
    reliable: bool,
    k: usize,
    small: &[u8],
    lanes: &[u8],
    out: &[u8],
    table: &[u64],
) -> Parts
    ensures { PartsGive reliable (seen_by s.now reliable k)
        (length small.now) (length lanes.now) (length out.now) (length table.now) result }
{
    let l = seen(s, reliable, k);
    Parts {
        small: memory::span_of(small, begins(reliable, memory::SMALL), l.small),
        lanes: memory::span_of(lanes, begins(reliable, memory::LANES), l.lanes),
        out: memory::span_of(out, begins(reliable, memory::OUT), l.out),
        table: memory::span_of(table, begins(reliable, memory::TABLE), l.table),
    }
}

// Makes a call with what it sees of the memory, and answers it. A round has a line for each packet.
fn answer(
    mut s: Senders,
    reliable: bool,
    c: Call,
    numbers: &[u64],
    bytes: &[u8],
    small: &mut [u8],
    lanes: &mut [u8],
    out: &mut [u8],
    table: &mut [u64],
    messages: &mut [u64],
    ranges: &mut [u64],
    page: &mut [u8],
) -> Told
    ensures { Sound result.senders }
{
    let mut stores = Stores { small, lanes };
    let mut room = Room { out, table };
    let answer = s.make(reliable, c.k, numbers, bytes, &mut stores, &mut room);
    s.lend(reliable, answer);
    let a = say_all(page, c.at, answer, s.usage(reliable));
    let at = answers::packets::listed(page, a, c.n, sent(answer), out, table, messages, ranges);
    Told { senders: s, at }
}

impl Senders {
    // Makes a call on one of the senders, by its number in the list of `read`.
    fn make(
        &mut self,
        reliable: bool,
        k: usize,
        numbers: &[u64],
        bytes: &[u8],
        stores: &mut Stores,
        room: &mut Room,
    ) -> Answer {
        match k {
            NEW => self.renew(reliable, numbers),
            SEND => self.send(reliable, bytes, stores),
            ROUND => self.round(reliable, numbers, stores, room),
            ACK => self.ack(MessageId(page::word(numbers, 0))),
            ACK_SLICE => self.ack_slice(
                MessageId(page::word(numbers, 0)),
                SliceIndex(page::word(numbers, 1)),
            ),
            DIGEST => Ok(digest(stores, room)),
            _ => Ok(self.told(reliable, k, numbers)),
        }
    }

    // What a call that changes no sender answers.
    fn told(&self, reliable: bool, k: usize, numbers: &[u64]) -> Said {
        match k {
            AVAILABLE => Said::Available(self.available(reliable)),
            CAN_SEND => Said::Can(self.can_send(reliable, page::size(numbers, 0))),
            LEND => Said::Lent(
                page::word(numbers, 0),
                page::word(numbers, 1),
                page::word(numbers, 2),
                page::word(numbers, 3),
            ),
            _ => Said::Usage,
        }
    }

    // What a sender is lent after a call.
    #[tactic(auto, unfolding(crate::specs::Sound::Sound))]
    fn lend(&mut self, reliable: bool, answer: Answer)
        ensures { Sound self.new }
    {
        if reliable {
            self.sr_lent = lent_by(self.sr_lent, answer);
        } else {
            self.su_lent = lent_by(self.su_lent, answer);
        }
    }

    // A new sender. A refused set-up leaves it as it was.
    #[tactic(auto, unfolding(crate::specs::Sound::Sound))]
    fn renew(&mut self, reliable: bool, numbers: &[u64]) -> Answer {
        let channel_id = (page::word(numbers, 0) % 256) as u8;
        let settings = answers::lent::settings(numbers, 1);
        if reliable {
            let made = SendChannelReliable::new(channel_id, settings, page::word(numbers, 5));
            made.answer?;
            self.sr = made.state;
            return Ok(Said::Ready);
        }
        let made = SendChannelUnreliable::new(channel_id, settings);
        made.answer?;
        self.su = made.state;
        Ok(Said::Ready)
    }

    #[tactic(auto, unfolding(crate::specs::Sound::Sound))]
    fn send(&mut self, reliable: bool, message: &[u8], stores: &mut Stores) -> Answer {
        if reliable {
            let r = self.sr.send_message(message, stores.small, stores.lanes);
            self.sr = r.state;
            return r.answer.map(|id| Said::Id(id.0));
        }
        let r = self.su.send_message(message, stores.small, stores.lanes);
        self.su = r.state;
        r.answer.map(|queue| match queue {
            Queue::Taken => Said::Taken,
            Queue::Dropped => Said::Dropped,
        })
    }

    #[tactic(auto, unfolding(crate::specs::Sound::Sound))]
    fn round(
        &mut self,
        reliable: bool,
        numbers: &[u64],
        stores: &Stores,
        room: &mut Room,
    ) -> Answer {
        let sequence = Sequence(page::word(numbers, 0));
        let second = page::word(numbers, 1);
        if reliable {
            let r = self.sr.get_packets_to_send(
                sequence,
                second,
                page::word(numbers, 2),
                stores.small,
                stores.lanes,
                room.out,
                room.table,
            );
            self.sr = r.state;
            return r.answer.map(|written| Said::Sent(written));
        }
        let r = self.su.get_packets_to_send(
            sequence,
            second,
            stores.small,
            stores.lanes,
            room.out,
            room.table,
        );
        self.su = r.state;
        r.answer.map(|written| Said::Sent(written))
    }

    #[tactic(auto, unfolding(crate::specs::Sound::Sound))]
    fn ack(&mut self, id: MessageId) -> Answer {
        let r = self.sr.process_message_ack(id);
        self.sr = r.state;
        r.answer.map(acked)
    }

    #[tactic(auto, unfolding(crate::specs::Sound::Sound))]
    fn ack_slice(&mut self, id: MessageId, index: SliceIndex) -> Answer {
        let r = self.sr.process_slice_message_ack(id, index);
        self.sr = r.state;
        r.answer.map(acked)
    }

    fn available(&self, reliable: bool) -> u64 {
        if reliable {
            return self.sr.available_memory() as u64;
        }
        self.su.available_memory() as u64
    }

    fn can_send(&self, reliable: bool, size: usize) -> bool {
        if reliable {
            return self.sr.can_send_message(size);
        }
        self.su.can_send_message(size)
    }

    fn usage(&self, reliable: bool) -> u64 {
        if reliable {
            return self.sr.memory_usage_bytes() as u64;
        }
        self.su.memory_usage_bytes() as u64
    }
}

// A new sender keeps no packet, and a round those that it sent. What is lent anew is no more than there is.
fn lent_by(mut l: Lent, answer: Answer) -> Lent
    requires { Own l }
    ensures { Own result }
{
    match answer {
        Ok(Said::Ready) => l.packets = 0,
        Ok(Said::Sent(w)) => l.packets = w.packets,
        Ok(Said::Lent(small, lanes, out, table)) => {
            l.small = memory::SMALL.min(small as usize);
            l.lanes = memory::LANES.min(lanes as usize);
            l.out = memory::OUT.min(out as usize);
            l.table = memory::TABLE.min(table as usize);
        }
        _ => {}
    }
    l
}

fn acked(a: Ack) -> Said {
    match a {
        Ack::Done => Said::Done,
        Ack::Unknown => Said::Unknown,
    }
}

fn digest(stores: &Stores, room: &Room) -> Said {
    Said::Digest(
        say::digest_bytes(stores.small),
        say::digest_bytes(stores.lanes),
        say::digest_bytes(room.out),
        say::digest_words(room.table),
    )
}

// How many packets a call sent.
fn sent(answer: Answer) -> usize {
    match answer {
        Ok(Said::Sent(w)) => w.packets,
        _ => 0,
    }
}

// Says what a call answers, and the memory in use.
fn say_all(page: &mut [u8], at: usize, answer: Answer, usage: u64) -> usize {
    let a = match answer {
        Err(why) => page::refusal(page, at, why),
        Ok(Said::Usage) => return page::line(page, at, b"usage #\n", &[usage]),
        Ok(said) => say_answer(page, at, said),
    };
    page::line(page, a, b"; usage #\n", &[usage])
}

fn say_answer(page: &mut [u8], at: usize, said: Said) -> usize {
    match said {
        Said::Ready => page::text(page, at, b"ready"),
        Said::Id(id) => page::line(page, at, b"taken id #", &[id]),
        Said::Taken => page::text(page, at, b"taken"),
        Said::Dropped => page::text(page, at, b"dropped"),
        Said::Done => page::text(page, at, b"done"),
        Said::Unknown => page::text(page, at, b"unknown id"),
        Said::Available(n) => page::line(page, at, b"available #", &[n]),
        Said::Can(holds) => page::yes(page, at, holds),
        Said::Lent(small, lanes, out, table) => page::line(
            page,
            at,
            b"lent small # lanes # out # table #",
            &[small, lanes, out, table],
        ),
        Said::Digest(small, lanes, out, table) => page::line(
            page,
            at,
            b"small # lanes # out # table #",
            &[small, lanes, out, table],
        ),
        Said::Usage => at,
        Said::Sent(w) => answers::packets::sent(page, at, w),
    }
}
