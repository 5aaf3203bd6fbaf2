#![tactic(auto)]
// Calls on the wire: packets, and the varints and counts that they are made of.
ghost use Rattle.std.specs.Prelude.{◌≡◌, length};
ghost use Rattle.script.specs.Ascii.{ascii};
ghost use Rattle.arguments.specs.Arguments.{leaves, taken_apart_of};
ghost use Rattle.octets.specs.Reader.{num_of};
ghost use Rattle.octets.specs.Writer.{put_of, left};
ghost use Rattle.octets.specs.Varint.{run, var_length};
ghost use Rattle.page.specs.Page.{sheet};
ghost use Rattle.session_wire.specs.Wire.{PutsBy, WritesBy, Decodes, OnOut, Answers, Called, digest_said, value_said, part_said, length_said, get_said, put_answer, put_letters, small_by_of, slice_by, packet_by};
ghost use Rattle.session_wire.specs.Lend.{all_lent, lent_by, lent_after_of};

use answers::packets;
use arguments::Read;
use memory::{MESSAGES, RANGES, WIRE};
use packet::Packet;
use packet_ack::Ack;
use packet_slice::Slice;
use packet_small::Small;
use words::{MessageId, Refusal, Sequence, SliceIndex};

// How many words of the tables and how many bytes are lent.
#[derive(Clone, Copy, Debug, PartialEq, Eq)]
pub struct Lent {
    pub messages: usize,
    pub ranges: usize,
    pub out: usize,
}

// What is lent after a call, and the place after the answer.
// A place and no answer stands beside the state, so it is not `After`.
#[derive(Clone, Copy, Debug, PartialEq, Eq)]
pub struct Told {
    pub lent: Lent,
    pub at: usize,
}

// All is lent at first.
pub fn start() -> Lent
    ensures { result ≡ all_lent }
{
    Lent {
        messages: MESSAGES,
        ranges: RANGES,
        out: WIRE,
    }
}

// The calls, in the order of `answer`, `put`, `write` and `get`.
pub fn read(line: &[u8], from: usize, numbers: &mut [u64], bytes: &mut [u8]) -> Read
    ensures { leaves result numbers.new bytes.new ≡ taken_apart_of (ascii "lend MRW digest - read b put-u16 nh put-varint nn put-bytes nb small-reliable ncnbw small-unreliable ncnbw reliable-slice ncnnnnnb unreliable-slice ncnnnnnb ack nnw get-u8 bn get-u16 bn get-varint bn get-bytes bn varint-len n") line.now from numbers.old bytes.old }
{
    arguments::taken_apart(
        b"lend MRW digest - read b put-u16 nh put-varint nn put-bytes nb small-reliable ncnbw small-unreliable ncnbw reliable-slice ncnnnnnb unreliable-slice ncnnnnnb ack nnw get-u8 bn get-u16 bn get-varint bn get-bytes bn varint-len n",
        line,
        from,
        numbers,
        bytes,
    )
}

// Makes the k-th call and answers it. What is lent comes one by one: of the tables and of `out` only
// fronts are lent on, each by the call that needs it.
pub fn call(
    e: Lent,
    k: usize,
    numbers: &[u64],
    bytes: &[u8],
    messages: &mut [u64],
    ranges: &mut [u64],
    out: &mut [u8],
    page: &mut [u8],
    at: usize,
) -> Told
    ensures { (result.lent ≡ lent_after_of k numbers.now e)
        × Called k e numbers.now bytes.now messages.old ranges.old out.old (sheet page.old at)
        messages.new ranges.new out.new (sheet page.new result.at) }
{
    if k == 0 {
        let a = page::line(page, at, b"lent messages # ranges # out #\n", numbers);
        return Told {
            lent: lend(numbers),
            at: a,
        };
    }
    let a = answer(e, k, numbers, bytes, messages, ranges, out, page, at);
    Told {
        lent: e,
        at: page::text(page, a, b"\n"),
    }
}

fn lend(numbers: &[u64]) -> Lent
    ensures { result ≡ lent_by numbers.now }
{
    Lent {
        messages: page::size(numbers, 0),
        ranges: page::size(numbers, 1),
        out: page::size(numbers, 2),
    }
}

fn answer(
    e: Lent,
    k: usize,
    numbers: &[u64],
    bytes: &[u8],
    messages: &mut [u64],
    ranges: &mut [u64],
    out: &mut [u8],
    page: &mut [u8],
    at: usize,
) -> usize
    ensures { Answers k e numbers.now bytes.now messages.old ranges.old out.old (sheet page.old at) messages.new ranges.new out.new (sheet page.new result) }
{
    match k {
        1 => digest(messages, ranges, out, page, at),
        2 => decoded(e, bytes, messages, ranges, page, at),
        _ => on_out(e.out, k, numbers, bytes, out, page, at),
    }
}

// The calls that touch no table.
fn on_out(
    lent: usize,
    k: usize,
    numbers: &[u64],
    bytes: &[u8],
    out: &mut [u8],
    page: &mut [u8],
    at: usize,
) -> usize
    ensures { OnOut lent k numbers.now bytes.now out.old (sheet page.old at) out.new (sheet page.new result) }
{
    if 10 < k {
        return get(k, numbers, bytes, page, at);
    }
    let n = page::part(lent, out);
    if 5 < k {
        return write(k, numbers, bytes, &mut out[..n], page, at);
    }
    put(k, numbers, bytes, &mut out[..n], page, at)
}

fn digest(messages: &[u64], ranges: &[u64], out: &[u8], page: &mut [u8], at: usize) -> usize
    ensures { sheet page.new result ≡ digest_said messages.now ranges.now out.now (sheet page.old at) }
{
    page::line(
        page,
        at,
        b"messages # ranges # out #",
        &[
            say::digest_words(messages),
            say::digest_words(ranges),
            say::digest_bytes(out),
        ],
    )
}

fn decoded(
    e: Lent,
    bytes: &[u8],
    messages: &mut [u64],
    ranges: &mut [u64],
    page: &mut [u8],
    at: usize,
) -> usize
    ensures { Decodes e bytes.now messages.old ranges.old (sheet page.old at) messages.new ranges.new (sheet page.new result) }
{
    let m = page::part(e.messages, messages);
    let r = page::part(e.ranges, ranges);
    let d = packets::read(bytes, &mut messages[..m], &mut ranges[..r]);
    packets::decoded(page, at, d, messages, ranges)
}

fn put(k: usize, numbers: &[u64], bytes: &[u8], out: &mut [u8], page: &mut [u8], at: usize) -> usize
    ensures { PutsBy k numbers.now bytes.now out.old (sheet page.old at) out.new (sheet page.new result) }
{
    let place = page::size(numbers, 0);
    match put_at(k, out, place, page::word(numbers, 1), bytes) {
        Err(why) => page::refusal(page, at, why),
        Ok(n) => {
            let a = page::line(page, at, b"to # ", &[n as u64]);
            page::bytes(page, a, packets::bytes_to(out, place, n))
        }
    }
}

fn put_at(k: usize, out: &mut [u8], place: usize, v: u64, bytes: &[u8]) -> Result<usize, Refusal>
    ensures { (put_of result ≡ put_answer k place v bytes.now (length out.old)) × (out.new ≡ left (put_of result) place (put_letters k v bytes.now) out.old) }
{
    match k {
        3 => octets::put_u16(out, place, (v % 65_536) as u16),
        4 => octets::put_varint(out, place, v),
        _ => octets::put_bytes_with_varint_length(out, place, bytes),
    }
}

// Writes a packet. The words behind its numbers are its table.
fn write(
    k: usize,
    numbers: &[u64],
    bytes: &[u8],
    out: &mut [u8],
    page: &mut [u8],
    at: usize,
) -> usize
    ensures { WritesBy k numbers.now bytes.now out.old (sheet page.old at) out.new (sheet page.new result) }
{
    let messages = page::words_from(numbers, 3);
    let ranges = page::words_from(numbers, 2);
    let held = ranges.len() / 2;
    let table = range_words::from_words(ranges);
    match packet::encode(out, named(k, numbers), messages, table, held, bytes) {
        Err(why) => page::refusal(page, at, why),
        Ok(n) => {
            let a = page::line(page, at, b"written # ", &[n as u64]);
            page::bytes(page, a, packets::bytes_at(out, 0, n))
        }
    }
}

// The packet that the numbers of a call say.
fn named(k: usize, numbers: &[u64]) -> Packet
    ensures { result ≡ packet_by k numbers.now }
{
    match k {
        6 => Packet::SmallReliable(small(numbers)),
        7 => Packet::SmallUnreliable(small(numbers)),
        8 => Packet::ReliableSlice(slice(numbers)),
        9 => Packet::UnreliableSlice(slice(numbers)),
        _ => Packet::Ack(Ack {
            sequence: Sequence(page::word(numbers, 0)),
            count: page::size(numbers, 1),
        }),
    }
}

fn small(numbers: &[u64]) -> Small
    ensures { result ≡ small_by_of numbers.now }
{
    Small {
        sequence: Sequence(page::word(numbers, 0)),
        channel_id: (page::word(numbers, 1) % 256) as u8,
        count: page::size(numbers, 2),
    }
}

fn slice(numbers: &[u64]) -> Slice
    ensures { result ≡ slice_by numbers.now }
{
    Slice {
        sequence: Sequence(page::word(numbers, 0)),
        channel_id: (page::word(numbers, 1) % 256) as u8,
        message_id: MessageId(page::word(numbers, 2)),
        slice_index: SliceIndex(page::word(numbers, 3)),
        num_slices: page::word(numbers, 4),
        place: page::size(numbers, 5),
        len: page::size(numbers, 6),
    }
}

fn get(k: usize, numbers: &[u64], bytes: &[u8], page: &mut [u8], at: usize) -> usize
    ensures { sheet page.new result ≡ get_said k numbers.now bytes.now (sheet page.old at) }
{
    let place = page::size(numbers, 0);
    match k {
        11 => got(octets::get_u8(bytes, place), page, at),
        12 => got(octets::get_u16(bytes, place), page, at),
        13 => got(octets::get_varint(bytes, place), page, at),
        14 => got_bytes(bytes, place, page, at),
        _ => length(page::word(numbers, 0), page, at),
    }
}

// A reader refuses for one reason alone.
fn got(g: Result<(u64, usize), Refusal>, page: &mut [u8], at: usize) -> usize
    ensures { sheet page.new result ≡ value_said (num_of g) (sheet page.old at) }
{
    match g {
        Err(_) => page::refusal(page, at, Refusal::BufferTooShort),
        Ok((v, next)) => page::line(page, at, b"value # next #", &[v, next as u64]),
    }
}

fn got_bytes(bytes: &[u8], place: usize, page: &mut [u8], at: usize) -> usize
    ensures { sheet page.new result ≡ part_said bytes.now (run bytes.now place) (sheet page.old at) }
{
    match octets::get_bytes_with_varint_length(bytes, place) {
        Err(_) => page::refusal(page, at, Refusal::BufferTooShort),
        Ok((p, len)) => {
            let a = page::line(page, at, b"at # length # ", &[p as u64, len as u64]);
            page::bytes(page, a, packets::bytes_at(bytes, p, len))
        }
    }
}

fn length(v: u64, page: &mut [u8], at: usize) -> usize
    ensures { sheet page.new result ≡ length_said (var_length v) (sheet page.old at) }
{
    match octets::varint_len(v) {
        Err(why) => page::refusal(page, at, why),
        Ok(n) => page::line(page, at, b"length #", &[n as u64]),
    }
}
