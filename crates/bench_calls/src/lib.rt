#![tactic(auto)]
// What bench/ measures: each call is one scenario, on ends of its own. The answers are sums, by which
// the program there sees that the work was done.
ghost use Rattle.std.specs.Prelude.{◌≡◌, length};
ghost use Rattle.octets.specs.Writer.{put_of};
ghost use Rattle.packet.specs.Packet.{decoded_of};
ghost use Rattle.pack.specs.Round.{went_of};
ghost use Rattle.bench_calls.specs.Times.{Times, Filled, held};
ghost use Rattle.bench_calls.specs.Calls.{Steps, StepsAt, StepsAtBoth};
ghost use Rattle.bench_calls.specs.Packets.{sample_of, written_of, used_of, WriteGives, ReadGives};
ghost use Rattle.bench_calls.specs.Ends as ends;

use channel::Settings;
use pack::Written;
use packet::Packet;
use packet_ack::{Ack, Range};
use packet_slice::Slice;
use packet_small::Small;
use receive_reliable::ReceiveChannelReliable;
use receive_unreliable::ReceiveChannelUnreliable;
use send_reliable::SendChannelReliable;
use send_unreliable::SendChannelUnreliable;
use words::{LANES, MAX_MEMORY, MessageId, PIECES, Refusal, SLOTS, Sequence, SliceIndex};

// Enough for everything that waits.
const ALLOWANCE: u64 = 1_000_000;

const LARGEST: Settings = Settings {
    slots: SLOTS,
    lanes: LANES,
    pieces: PIECES,
    max_memory_usage_bytes: MAX_MEMORY,
};

// ---- packets

// A packet of each kind: the first messages or ranges of a table, or a piece of n bytes. The kind is a number
// since the C interface takes no enum.
fn sample(kind: u8, count: usize, n: usize) -> Packet
    ensures { result ≡ sample_of kind count n }
{
    let sequence = Sequence(1000);
    let small = Small {
        sequence,
        channel_id: 1,
        count,
    };
    let slice = Slice {
        sequence,
        channel_id: 1,
        message_id: MessageId(300),
        slice_index: SliceIndex(7),
        num_slices: 40,
        place: 0,
        len: n,
    };
    match kind {
        0 => Packet::SmallReliable(small),
        1 => Packet::SmallUnreliable(small),
        2 => Packet::ReliableSlice(slice),
        3 => Packet::UnreliableSlice(slice),
        _ => Packet::Ack(Ack { sequence, count }),
    }
}

// How many bytes a packet has, or 0 where it was refused.
fn written(answer: Result<usize, Refusal>) -> usize
    ensures { result ≡ written_of (put_of answer) }
{
    answer.unwrap_or(0)
}

#[unsafe(no_mangle)]
pub extern "C" fn bench_write(
    out: &mut [u8],
    messages: &[u64],
    ranges: &[Range],
    store: &[u8],
    kind: u8,
    count: usize,
) -> usize
    ensures { WriteGives (sample_of kind count (length store.now)) messages.now ranges.now store.now out.old out.new result }
{
    let packet = sample(kind, count, store.len());
    written(packet::to_bytes(out, packet, messages, ranges, store))
}

// How many bytes a packet used, or 0 where it was refused.
fn used(answer: Result<(Packet, usize), Refusal>) -> usize
    ensures { result ≡ used_of (decoded_of answer) }
{
    match answer {
        Ok((_, n)) => n,
        Err(_) => 0,
    }
}

#[unsafe(no_mangle)]
pub extern "C" fn bench_read(bytes: &[u8], messages: &mut [u64], ranges: &mut [Range]) -> usize
    ensures { ReadGives bytes.now messages.old ranges.old messages.new ranges.new result }
{
    used(packet::from_bytes(bytes, messages, ranges))
}

// ---- calls one after the other

// So many steps from a state, each told its number. Three functions, since the type of a closure says what it is
// lent: nothing, one store or two. Walk and step change the state in place: handed over and back
// it would be copied once more.
fn times<S, F: Fn(&mut S, usize)>(state: &mut S, count: usize, step: F)
    requires { F.IsAlwaysCallable step }
    ensures { Times (Steps F.Fn step) count state.old state.new }
{
    for k in 0..count {
        step(state, k);
    }
}

// The same, where each step is lent a store.
fn times_at<S, F: Fn(&mut S, usize, &mut [u8])>(
    state: &mut S,
    count: usize,
    store: &mut [u8],
    step: F,
)
    requires { F.IsAlwaysCallable step }
    ensures { Times (StepsAt F.Fn step) count (state.old, store.old) (state.new, store.new) }
{
    for k in 0..count {
        step(state, k, store);
    }
}

// The same, where each step is lent two stores.
fn times_at_both<S, F: Fn(&mut S, usize, &mut [u8], &mut [u8])>(
    state: &mut S,
    count: usize,
    small: &mut [u8],
    lanes: &mut [u8],
    step: F,
)
    requires { F.IsAlwaysCallable step }
    ensures { Times (StepsAtBoth F.Fn step) count (held state.old small.old lanes.old) (held state.new small.new lanes.new) }
{
    for k in 0..count {
        step(state, k, small, lanes);
    }
}

// ---- the reliable sender

// A sender that a message was queued in so many times; every round sends all of them.
fn sr_queued(
    count: usize,
    message: &[u8],
    small: &mut [u8],
    lanes: &mut [u8],
) -> SendChannelReliable
    ensures { Filled ends.SrNew (ends.SrQueues message.now) count small.old lanes.old small.new lanes.new result }
{
    let mut state = SendChannelReliable::new(0, LARGEST, 0).state;
    times_at_both(&mut state, count, small, lanes, |s, _, small, lanes| {
        *s = s.send_message(message, small, lanes).state
    });
    state
}

// Acknowledges the first messages.
fn sr_acked(mut first: SendChannelReliable, count: usize) -> SendChannelReliable
    ensures { Times ends.SrAcks count first result }
{
    times(&mut first, count, |s, k| {
        *s = s.process_message_ack(MessageId(k as u64)).state
    });
    first
}

// Acknowledges the first pieces of message 0.
fn sr_acked_pieces(mut first: SendChannelReliable, count: usize) -> SendChannelReliable
    ensures { Times ends.SrAcksPiece count first result }
{
    times(&mut first, count, |s, k| {
        *s = s
            .process_slice_message_ack(MessageId(0), SliceIndex(k as u64))
            .state
    });
    first
}

#[unsafe(no_mangle)]
pub extern "C" fn bench_sr_messages(
    count: usize,
    acks: usize,
    message: &[u8],
    small: &mut [u8],
    lanes: &mut [u8],
) -> usize
    ensures { ends.SrMessages count acks message.now small.old lanes.old small.new lanes.new result }
{
    let queued = sr_queued(count, message, small, lanes);
    let state = sr_acked(queued, acks);
    state.memory_usage_bytes()
}

#[unsafe(no_mangle)]
pub extern "C" fn bench_sr_pieces(
    acks: usize,
    message: &[u8],
    small: &mut [u8],
    lanes: &mut [u8],
) -> usize
    ensures { ends.SrPieces acks message.now small.old lanes.old small.new lanes.new result }
{
    let queued = sr_queued(1, message, small, lanes);
    let state = sr_acked_pieces(queued, acks);
    state.memory_usage_bytes()
}

// How many packets a round had.
fn packets_of(answer: Result<Written, Refusal>) -> usize
    ensures { result ≡ ends.packets_said (went_of answer) }
{
    match answer {
        Ok(written) => written.packets,
        Err(_) => 0,
    }
}

// Sends all that waits so many times, and answers how many packets the last round had.
// A loop of its own: no other step is lent a table of words, and answers a number beside the state.
fn sr_sent(
    first: SendChannelReliable,
    rounds: usize,
    small: &[u8],
    lanes: &[u8],
    out: &mut [u8],
    table: &mut [u64],
) -> usize
    ensures { ends.SrSent small.now lanes.now rounds first out.old table.old out.new table.new result }
{
    let mut state = first;
    let mut packets = 0;
    for _ in 0..rounds {
        let round = state.get_packets_to_send(Sequence(0), 0, ALLOWANCE, small, lanes, out, table);
        packets = packets_of(round.answer);
        state = round.state;
    }
    packets
}

#[unsafe(no_mangle)]
pub extern "C" fn bench_sr_round(
    count: usize,
    rounds: usize,
    message: &[u8],
    small: &mut [u8],
    lanes: &mut [u8],
    out: &mut [u8],
    table: &mut [u64],
) -> usize
    ensures { ends.SrRounds count rounds message.now small.old lanes.old out.old table.old small.new lanes.new out.new table.new result }
{
    let state = sr_queued(count, message, small, lanes);
    sr_sent(state, rounds, small, lanes, out, table)
}

// ---- the unreliable sender

// A sender that a message was queued in so many times.
fn su_queued(
    count: usize,
    message: &[u8],
    small: &mut [u8],
    lanes: &mut [u8],
) -> SendChannelUnreliable
    ensures { Filled ends.SuNew (ends.SuQueues message.now) count small.old lanes.old small.new lanes.new result }
{
    let mut state = SendChannelUnreliable::new(0, LARGEST).state;
    times_at_both(&mut state, count, small, lanes, |s, _, small, lanes| {
        *s = s.send_message(message, small, lanes).state
    });
    state
}

#[unsafe(no_mangle)]
pub extern "C" fn bench_su_messages(
    count: usize,
    message: &[u8],
    small: &mut [u8],
    lanes: &mut [u8],
) -> usize
    ensures { ends.SuUsage count message.now small.old lanes.old small.new lanes.new result }
{
    let state = su_queued(count, message, small, lanes);
    state.memory_usage_bytes()
}

#[unsafe(no_mangle)]
pub extern "C" fn bench_su_round(
    count: usize,
    message: &[u8],
    small: &mut [u8],
    lanes: &mut [u8],
    out: &mut [u8],
    table: &mut [u64],
) -> usize
    ensures { ends.SuRound count message.now small.old lanes.old out.old table.old small.new lanes.new out.new table.new result }
{
    let state = su_queued(count, message, small, lanes);
    let round = state.get_packets_to_send(Sequence(0), ALLOWANCE, small, lanes, out, table);
    let answer = round.answer;
    packets_of(answer)
}

// ---- the reliable receiver

// A receiver that small messages 0, 1, .. came to, all with the same bytes.
fn rr_received(
    count: usize,
    message: &[u8],
    small: &mut [u8],
    lanes: &[u8],
) -> ReceiveChannelReliable
    ensures { Filled ends.RrNew (ends.RrHears message.now) count small.old lanes.now small.new lanes.now result }
{
    let mut state = ReceiveChannelReliable::new(LARGEST).state;
    times_at(&mut state, count, small, |s, k, small| {
        *s = s
            .process_message(MessageId(k as u64), message, small, lanes)
            .state
    });
    state
}

// A receiver that all pieces of message 0 came to, each with the same bytes.
fn rr_collected(
    count: usize,
    payload: &[u8],
    small: &[u8],
    lanes: &mut [u8],
) -> ReceiveChannelReliable
    ensures { Filled ends.RrNew (ends.RrCollects count payload.now) count small.now lanes.old small.now lanes.new result }
{
    let mut state = ReceiveChannelReliable::new(LARGEST).state;
    times_at(&mut state, count, lanes, |s, k, lanes| {
        let index = SliceIndex(k as u64);
        *s = s
            .process_slice(MessageId(0), index, count as u64, payload, small, lanes)
            .state
    });
    state
}

// Takes so many messages out.
fn rr_taken(mut first: ReceiveChannelReliable, count: usize) -> ReceiveChannelReliable
    ensures { Times ends.RrTakes count first result }
{
    times(&mut first, count, |s, _| *s = s.receive_message().state);
    first
}

#[unsafe(no_mangle)]
pub extern "C" fn bench_rr_messages(
    count: usize,
    takes: usize,
    message: &[u8],
    small: &mut [u8],
    lanes: &[u8],
) -> usize
    ensures { ends.RrMessages count takes message.now small.old lanes.now small.new lanes.now result }
{
    let held = rr_received(count, message, small, lanes);
    let state = rr_taken(held, takes);
    state.memory_usage_bytes()
}

#[unsafe(no_mangle)]
pub extern "C" fn bench_rr_pieces(
    count: usize,
    takes: usize,
    payload: &[u8],
    small: &[u8],
    lanes: &mut [u8],
) -> usize
    ensures { ends.RrPieces count takes payload.now small.now lanes.old small.now lanes.new result }
{
    let held = rr_collected(count, payload, small, lanes);
    let state = rr_taken(held, takes);
    state.memory_usage_bytes()
}

// ---- the unreliable receiver

// A receiver that small messages came to, all with the same bytes.
fn ru_received(
    count: usize,
    message: &[u8],
    small: &mut [u8],
    lanes: &[u8],
) -> ReceiveChannelUnreliable
    ensures { Filled ends.RuNew (ends.RuHears message.now) count small.old lanes.now small.new lanes.now result }
{
    let mut state = ReceiveChannelUnreliable::new(LARGEST).state;
    times_at(&mut state, count, small, |s, _, small| {
        *s = s.process_message(message, small, lanes).state
    });
    state
}

// A receiver that all pieces of message 0 came to, each with the same bytes.
fn ru_collected(
    count: usize,
    payload: &[u8],
    small: &[u8],
    lanes: &mut [u8],
) -> ReceiveChannelUnreliable
    ensures { Filled ends.RuNew (ends.RuCollects count payload.now) count small.now lanes.old small.now lanes.new result }
{
    let mut state = ReceiveChannelUnreliable::new(LARGEST).state;
    times_at(&mut state, count, lanes, |s, k, lanes| {
        let index = SliceIndex(k as u64);
        *s = s
            .process_slice(MessageId(0), index, count as u64, payload, 0, small, lanes)
            .state
    });
    state
}

// Takes so many messages out.
fn ru_taken(mut first: ReceiveChannelUnreliable, count: usize) -> ReceiveChannelUnreliable
    ensures { Times ends.RuTakes count first result }
{
    times(&mut first, count, |s, _| *s = s.receive_message().state);
    first
}

#[unsafe(no_mangle)]
pub extern "C" fn bench_ru_messages(
    count: usize,
    takes: usize,
    message: &[u8],
    small: &mut [u8],
    lanes: &[u8],
) -> usize
    ensures { ends.RuMessages count takes message.now small.old lanes.now small.new lanes.now result }
{
    let held = ru_received(count, message, small, lanes);
    let state = ru_taken(held, takes);
    state.memory_usage_bytes()
}

#[unsafe(no_mangle)]
pub extern "C" fn bench_ru_pieces(
    count: usize,
    takes: usize,
    payload: &[u8],
    small: &[u8],
    lanes: &mut [u8],
) -> usize
    ensures { ends.RuPieces count takes payload.now small.now lanes.old small.now lanes.new result }
{
    let held = ru_collected(count, payload, small, lanes);
    let state = ru_taken(held, takes);
    state.memory_usage_bytes()
}
