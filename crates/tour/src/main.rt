#![tactic(auto)]
// A tour of the library: a long message and a short one cross a line that loses a packet.
//
// Both ends stand in this one program, so that it reads from top to bottom; between two machines the
// packets would go through a socket. States go into a call by value and come back beside its answer, and
// all memory is the caller's. The library asks nothing of a caller: that a state is one that its calls
// made stands in the state's type, so all of this is proved unasked.
ghost use Rattle.std.specs.Prelude.{◌≡◌, length};
ghost use Rattle.receive_reliable.specs.Receive as r;
ghost use Rattle.tour.specs.Tour.{Queues, MessageArrives, PieceArrives};

use channel::Settings;
use pack::{Budget, Written};
use packet::Packet;
use packet_ack::{RANGES, Range};
use packet_slice::Slice;
use receive_reliable::{Arrival, Message, ReceiveChannelReliable};
use send_reliable::SendChannelReliable;
use words::{MessageId, Refusal, SLICE_SIZE, Sequence};

// Two small messages and a long one of two pieces may wait at each end.
const SLOTS: usize = 2;

const LANES: usize = 1;

const PIECES: usize = 2;

// The stores that such an end is lent: a cell for each small message, and a lane for each long one.
const SMALL: usize = SLOTS * SLICE_SIZE;

const LANE: usize = LANES * PIECES * SLICE_SIZE;

// A message above SLICE_SIZE bytes goes in pieces.
const LONG: usize = SLICE_SIZE + 1;

// Times are nanoseconds: what isn't acknowledged goes again after 100 ms.
const RESEND_TIME: u64 = 100_000_000;

// Room for the packets of a round, and for their table: where each starts, and its length.
const WIRE: usize = 6_000;

const PACKETS: usize = 8;

const ENTRY: usize = 2;

const TABLE: usize = ENTRY * PACKETS;

// Room for the table of a packet's messages: the id of each, where it starts, and its length.
const MESSAGES: usize = 8;

const MESSAGE: usize = 3;

const MESSAGE_TABLE: usize = MESSAGE * MESSAGES;

// The standard output.
const STDOUT: i32 = 1;

// Both ends.
#[derive(Clone, Copy)]
struct Ends {
    sender: SendChannelReliable,
    receiver: ReceiveChannelReliable,
}

// What an end is lent.
#[derive(Drop)]
struct Stores {
    small: [u8; SMALL],
    lanes: [u8; LANE],
}

// Both ends after a round, and what it wrote. That tells the number of the next packet, which the caller
// keeps, since channels share the numbers.
#[derive(Clone, Copy)]
struct Rounded {
    ends: Ends,
    written: Written,
}

fn main() {
    let mut near = Stores::empty();
    let mut far = Stores::empty();
    let e = queue_both(start(), &mut near);
    let r = lossy(e, &near, &mut far);
    let e = again(r, &near, &mut far);
    say_usage(e);
}

// The first packet is lost. It had a piece of the first message, so nothing can come out yet.
fn lossy(e: Ends, near: &Stores, far: &mut Stores) -> Rounded {
    let r = cross(e, Sequence(0), 0, 1, near, far);
    Rounded {
        ends: take(r.ends, far),
        written: r.written,
    }
}

// After the resend time the missing piece goes again, and nothing else: both messages come out.
fn again(r: Rounded, near: &Stores, far: &mut Stores) -> Ends {
    let next = r.written.next_sequence;
    let r = cross(r.ends, next, RESEND_TIME, 0, near, far);
    take(take(r.ends, far), far)
}

// Queues a message that goes in pieces, and a small one.
fn queue_both(e: Ends, near: &mut Stores) -> Ends {
    let mut long = [b'a'; LONG];
    long[SLICE_SIZE] = b'z';
    let e = queue(e, &long, near);
    queue(e, b"hello", near)
}

// Sets both ends up, for channel 0. Settings outside their ranges would be refused (9).
fn start() -> Ends {
    let settings = Settings {
        slots: SLOTS,
        lanes: LANES,
        pieces: PIECES,
        max_memory_usage_bytes: 10_000,
    };
    Ends {
        sender: SendChannelReliable::new(0, settings, RESEND_TIME).state,
        receiver: ReceiveChannelReliable::new(settings).state,
    }
}

// Queues a message. Its bytes are copied to a store.
fn queue(e: Ends, message: &[u8], near: &mut Stores) -> Ends
    ensures { Queues e (length message.now) (length near.old.small) (length near.old.lanes) result }
{
    let queued = e
        .sender
        .send_message(message, &mut near.small, &mut near.lanes);
    say_queued(queued.answer, message);
    Ends {
        sender: queued.state,
        receiver: e.receiver,
    }
}

// A round of the sender, whose packets reach the receiver from the k-th on.
fn cross(
    e: Ends,
    sequence: Sequence,
    current_time: u64,
    k: usize,
    near: &Stores,
    far: &mut Stores,
) -> Rounded {
    let mut wire = [0u8; WIRE];
    let mut table = [0u64; TABLE];
    let r = round(e, sequence, current_time, near, &mut wire, &mut table);
    Rounded {
        ends: deliver_from(r.ends, k, r.written.packets, &wire, &table, far),
        written: r.written,
    }
}

// The round: what is due goes, as far as an allowance of 5,000 bytes of messages reaches.
fn round(
    e: Ends,
    sequence: Sequence,
    current_time: u64,
    near: &Stores,
    wire: &mut [u8],
    table: &mut [u64],
) -> Rounded
    ensures { result.ends.receiver ≡ e.receiver }
{
    let small = &near.small;
    let lanes = &near.lanes;
    let round = e
        .sender
        .get_packets_to_send(sequence, current_time, 5_000, small, lanes, wire, table);
    Rounded {
        ends: Ends {
            sender: round.state,
            receiver: e.receiver,
        },
        written: say_round(round.answer, sequence),
    }
}

// Delivers packets from the k-th on.
fn deliver_from(
    e: Ends,
    k: usize,
    packets: usize,
    wire: &[u8],
    table: &[u64; TABLE],
    far: &mut Stores,
) -> Ends {
    let mut ends = e;
    for i in k..packets {
        ends = deliver(ends, packet_at(wire, table, i), far);
    }
    ends
}

// Reads a packet and hands what is in it to the receiver. A program with more channels looks at the
// packet's `channel_id` first.
fn deliver(e: Ends, packet: &[u8], far: &mut Stores) -> Ends {
    let mut messages = [0u64; MESSAGE_TABLE];
    let mut ranges = [Range { start: 0, end: 0 }; RANGES];
    let Ok((p, _)) = packet::from_bytes(packet, &mut messages, &mut ranges) else {
        return e;
    };
    say_packet(p);
    match p {
        Packet::SmallReliable(p) => deliver_small(
            e,
            p.count,
            packet,
            &messages,
            &mut far.small,
            &far.lanes,
        ),
        Packet::ReliableSlice(p) => {
            let piece = part(packet, p.place, p.len);
            deliver_piece(e, p, piece, &far.small, &mut far.lanes)
        }
        _ => e,
    }
}

// Delivers the small messages of a packet. The stores are lent one by one, so that the types say which of them
// may change.
fn deliver_small(
    e: Ends,
    count: usize,
    packet: &[u8],
    messages: &[u64; MESSAGE_TABLE],
    small: &mut [u8],
    lanes: &[u8],
) -> Ends {
    let mut ends = e;
    for i in 0..count {
        let id = message_id_at(messages, i);
        ends = deliver_message(ends, id, message_at(packet, messages, i), small, lanes);
    }
    ends
}

// Delivers a small message; the sender hears of it if it was taken. Between two machines the numbers of
// packets come back in an Ack packet, and the sender's side keeps which messages each packet had.
fn deliver_message(e: Ends, id: MessageId, message: &[u8], small: &mut [u8], lanes: &[u8]) -> Ends
    ensures { MessageArrives e id.0 (length message.now) (length small.old) (length lanes.now) result }
{
    let arrived = e.receiver.process_message(id, message, small, lanes);
    let sender = match arrived.answer {
        Ok(Arrival::Taken) => e.sender.process_message_ack(id).state,
        _ => e.sender,
    };
    Ends {
        sender,
        receiver: arrived.state,
    }
}

// Delivers a piece of a long message, in the same way.
fn deliver_piece(e: Ends, p: Slice, piece: &[u8], small: &[u8], lanes: &mut [u8]) -> Ends
    ensures { PieceArrives e p.message_id.0 p.num_slices p.slice_index.0
        (length piece.now) (length small.now) (length lanes.old) result }
{
    let id = p.message_id;
    let index = p.slice_index;
    let arrived = e
        .receiver
        .process_slice(id, index, p.num_slices, piece, small, lanes);
    let sender = match arrived.answer {
        Ok(Arrival::Taken) => e.sender.process_slice_message_ack(id, index).state,
        _ => e.sender,
    };
    Ends {
        sender,
        receiver: arrived.state,
    }
}

// Takes the message that comes next, if it is here. Its bytes are a part of a store, so they are read
// before the take, which frees their place.
fn take(e: Ends, far: &Stores) -> Ends
    ensures { (result.sender ≡ e.sender) × (result.receiver ≡ r.after_take e.receiver) }
{
    let look = e.receiver.look(&far.small, &far.lanes);
    say_out(look, e.receiver.message(&far.small, &far.lanes));
    Ends {
        sender: e.sender,
        receiver: e.receiver.receive_message().state,
    }
}

// The i-th packet of a round.
fn packet_at<'a>(wire: &'a [u8], table: &[u64; TABLE], i: usize) -> &'a [u8] {
    if PACKETS <= i {
        return &wire[..0];
    }
    let j = ENTRY * i;
    part(wire, table[j] as usize, table[j + 1] as usize)
}

// The i-th message of a packet.
fn message_at<'a>(packet: &'a [u8], messages: &[u64; MESSAGE_TABLE], i: usize) -> &'a [u8] {
    if MESSAGES <= i {
        return &packet[..0];
    }
    let j = MESSAGE * i;
    part(packet, messages[j + 1] as usize, messages[j + 2] as usize)
}

// The id of the i-th message of a packet; 0 where there is none.
fn message_id_at(messages: &[u64; MESSAGE_TABLE], i: usize) -> MessageId {
    if MESSAGES <= i {
        return MessageId(0);
    }
    MessageId(messages[MESSAGE * i])
}

// A part of some bytes; an empty one where there is no such part.
fn part(bytes: &[u8], place: usize, len: usize) -> &[u8] {
    if bytes.len() < place || bytes.len() - place < len {
        return &bytes[..0];
    }
    &bytes[place..place + len]
}

fn text(s: &[u8]) {
    io::write_all(STDOUT, s);
}

fn say(s: &[u8], n: u64) {
    text(s);
    io::print_decimal(STDOUT, n);
}

fn say_message(s: &[u8], id: MessageId, message: &[u8]) {
    say(s, id.0);
    say(b", bytes: ", message.len() as u64);
    say(b", digest: ", say::digest_bytes(message));
    text(b"\n");
}

fn say_queued(answer: Result<MessageId, Refusal>, message: &[u8]) {
    match answer {
        Ok(id) => say_message(b"queued message ", id, message),
        Err(why) => say(b"refused: ", why.number() as u64),
    }
}

fn say_packet(p: Packet) {
    match p {
        Packet::SmallReliable(p) => say(b"  arrives: small messages, ", p.count as u64),
        Packet::ReliableSlice(p) => say(b"  arrives: piece ", p.slice_index.0),
        _ => text(b"  arrives: something else"),
    }
    text(b"\n");
}

fn say_out(look: Result<Option<Message>, Refusal>, message: &[u8]) {
    match look {
        Ok(Some(m)) => say_message(b"out comes message ", m.id, message),
        _ => text(b"nothing comes out yet\n"),
    }
}

// Says and tells what a round wrote; a refused one wrote nothing.
fn say_round(answer: Result<Written, Refusal>, sequence: Sequence) -> Written {
    match answer {
        Ok(written) => {
            say(b"a round of packets: ", written.packets as u64);
            text(b"\n");
            written
        }
        Err(_) => Written {
            packets: 0,
            bytes: 0,
            next_sequence: sequence,
            budget: Budget {
                allowed: 0,
                spent: 0,
            },
        },
    }
}

// Says how many bytes wait at each end.
fn say_usage(e: Ends) {
    say(
        b"bytes in use: sender ",
        e.sender.memory_usage_bytes() as u64,
    );
    say(b", receiver ", e.receiver.memory_usage_bytes() as u64);
    text(b"\n");
}

impl Stores {
    fn empty() -> Stores {
        Stores {
            small: [0; SMALL],
            lanes: [0; LANE],
        }
    }
}
