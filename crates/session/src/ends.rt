// All ends of a session, and the calls on them, each with its own part of the memory.
ghost use Rattle.session.specs.Sound.{Sound};

use answers::Call;
use session_receive::Receivers;
use session_send::Senders;
use std::marker::Model;

// The end that a line names: of two senders or receivers, whether it is the reliable one.
#[derive(Clone, Copy)]
pub enum Which {
    Wire,
    Sc,
    Send(bool),
    Receive(bool),
}

#[derive(Clone, Copy)]
pub struct Ends {
    pub wire: session_wire::Lent,
    pub sc: session_sc::End,
    pub senders: Senders,
    pub receivers: Receivers,
}

// A contract sees them, of which `Sound` is always true.
impl Model for Ends {
    ghost use Rattle.session.specs.State.{State};

    ghost Value = { State };

    ghost use Rattle.session.specs.Sound.{Sound};
    ghost use Rattle.session.specs.Fields.{state_of, fields_of};

    ghost view = { state_of };

    ghost invariant = { λ a. Sound (state_of a) };

    ghost inverse = { fields_of };
}

// What is lent to the ends: the stores of small messages and of pieces, the packets of the rounds and
// their tables, the tables of a packet that is read, and the page for the answers.
// The buffers themselves stand in it: of references in one struct, the check has no rule for one that is
// changed beside one that is read, and `receive` lends both.
#[derive(Drop)]
pub struct Memory {
    pub small: [u8; memory::ALL_SMALL],
    pub lanes: [u8; memory::ALL_LANES],
    pub out: [u8; memory::ALL_OUT],
    pub table: [u64; memory::ALL_TABLES],
    pub messages: [u64; memory::MESSAGES],
    pub ranges: [u64; memory::RANGES],
    pub page: [u8; memory::PAGE],
}

#[tactic(auto, unfolding(crate::specs::Sound::Sound))]
pub fn start() -> Ends
    ensures { Sound result }
{
    Ends {
        wire: session_wire::start(),
        sc: session_sc::start(),
        senders: session_send::start(),
        receivers: session_receive::start(),
    }
}

// Makes the call of the end that a line names, and answers the place after what it says.
pub fn answer(
    ends: &mut Ends,
    which: Which,
    c: Call,
    numbers: &[u64],
    bytes: &[u8],
    m: &mut Memory,
) -> usize {
    match which {
        Which::Wire => wire(ends, c, numbers, bytes, m),
        Which::Sc => collect(ends, c, numbers, bytes, m),
        Which::Send(reliable) => send(ends, reliable, c, numbers, bytes, m),
        Which::Receive(reliable) => receive(ends, reliable, c, numbers, bytes, m),
    }
}

// Calls the codec.
#[tactic(auto, unfolding(crate::specs::Sound::Sound))]
fn wire(ends: &mut Ends, c: Call, numbers: &[u64], bytes: &[u8], m: &mut Memory) -> usize {
    let out: &mut [u8] = &mut m.out;
    let own = memory::span_of(out, memory::WIRE_OUT, memory::WIRE);
    let t = session_wire::call(
        ends.wire,
        c.k,
        numbers,
        bytes,
        &mut m.messages,
        &mut m.ranges,
        &mut out[own.start..own.end],
        &mut m.page,
        c.at,
    );
    ends.wire = t.lent;
    t.at
}

// Calls the slice constructor.
#[tactic(auto, unfolding(crate::specs::Sound::Sound))]
fn collect(ends: &mut Ends, c: Call, numbers: &[u64], bytes: &[u8], m: &mut Memory) -> usize {
    let lanes: &mut [u8] = &mut m.lanes;
    let own = memory::span_of(lanes, memory::SC_LANE, memory::LANE);
    let t = session_sc::call(
        ends.sc,
        c.k,
        numbers,
        bytes,
        &mut lanes[own.start..own.end],
        &mut m.page,
        c.at,
    );
    ends.sc = t.end;
    t.at
}

// Calls a sender.
#[tactic(auto, unfolding(crate::specs::Sound::Sound))]
fn send(
    ends: &mut Ends,
    reliable: bool,
    c: Call,
    numbers: &[u64],
    bytes: &[u8],
    m: &mut Memory,
) -> usize {
    let t = session_send::call(
        ends.senders,
        reliable,
        c,
        numbers,
        bytes,
        &mut m.small,
        &mut m.lanes,
        &mut m.out,
        &mut m.table,
        &mut m.messages,
        &mut m.ranges,
        &mut m.page,
    );
    ends.senders = t.senders;
    t.at
}

// Calls a receiver. Packets are those of its sender's last round, and are read into the tables of the codec.
#[tactic(auto, unfolding(crate::specs::Sound::Sound))]
fn receive(
    ends: &mut Ends,
    reliable: bool,
    c: Call,
    numbers: &[u64],
    bytes: &[u8],
    m: &mut Memory,
) -> usize {
    let messages: &mut [u64] = &mut m.messages;
    let ranges: &mut [u64] = &mut m.ranges;
    let p = page::part(ends.wire.messages, messages);
    let q = page::part(ends.wire.ranges, ranges);
    let packets = session_send::packets(ends.senders, reliable);
    let t = session_receive::call(
        ends.receivers,
        reliable,
        c,
        packets,
        numbers,
        bytes,
        &m.out,
        &m.table,
        &mut messages[..p],
        &mut ranges[..q],
        &mut m.small,
        &mut m.lanes,
        &mut m.page,
    );
    ends.receivers = t.receivers;
    t.at
}
