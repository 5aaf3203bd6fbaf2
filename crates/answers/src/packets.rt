// Packets in words.
ghost use Rattle.std.specs.Prelude.{◌≡◌};
ghost use Rattle.page.specs.Page.{sheet, said, lined};
ghost use Rattle.answers.specs.Packets.{small_said, slice_said, rows_said, packet_said, told_said, decoded_said, Reads, bytes_at, bytes_to_of, message_at_of, id_at};
ghost use Rattle.answers.specs.Rounds.{sent_said, start_at, kept_at, number_said, shown_said, desk, Apart, Listed};

use pack::Written;
use packet::Packet;
use packet_slice::Slice;
use packet_small::{RECORD, Small};
use words::Refusal;

// Words of a table for each range.
const RANGE: usize = 2;

// A packet that was read and how many bytes it has, or the refusal.
pub type Decoded = Result<(Packet, usize), Refusal>;

// Says a decoded packet and how many bytes it has, or the refusal. Its tables are filled.
#[tactic(auto, unfolding(crate::specs::Packets::decoded_said))]
pub fn decoded(page: &mut [u8], at: usize, d: Decoded, messages: &[u64], ranges: &[u64]) -> usize
    ensures { sheet page.new result ≡ decoded_said d messages.now ranges.now (sheet page.old at) }
{
    match d {
        Err(e) => page::refusal(page, at, e),
        Ok((p, used)) => {
            let a = whole(page, at, p, messages, ranges);
            page::line(page, a, b"; used #", &[used as u64])
        }
    }
}

// Says a decoded packet, or the refusal.
#[tactic(auto, unfolding(crate::specs::Packets::told_said))]
fn told(page: &mut [u8], at: usize, d: Decoded, messages: &[u64], ranges: &[u64]) -> usize
    ensures { sheet page.new result ≡ told_said d messages.now ranges.now (sheet page.old at) }
{
    match d {
        Err(e) => page::refusal(page, at, e),
        Ok((p, _)) => whole(page, at, p, messages, ranges),
    }
}

// Says a packet of any kind.
#[tactic(auto, unfolding(crate::specs::Packets::packet_said))]
fn whole(page: &mut [u8], at: usize, p: Packet, messages: &[u64], ranges: &[u64]) -> usize
    ensures { sheet page.new result ≡ packet_said p messages.now ranges.now (sheet page.old at) }
{
    match p {
        Packet::SmallReliable(s) => {
            let a = small(page, at, b"SmallReliable", s);
            rows(page, a, b", id # at # length #", messages, RECORD, s.count)
        }
        Packet::SmallUnreliable(s) => {
            let a = small(page, at, b"SmallUnreliable", s);
            let t = page::words_from(messages, 1);
            rows(page, a, b", at # length #", t, RECORD, s.count)
        }
        Packet::ReliableSlice(s) => slice(page, at, b"ReliableSlice", s),
        Packet::UnreliableSlice(s) => slice(page, at, b"UnreliableSlice", s),
        Packet::Ack(s) => {
            let a = page::line(
                page,
                at,
                b"Ack sequence # ranges #",
                &[s.sequence.0, s.count as u64],
            );
            rows(page, a, b", #..#", ranges, RANGE, s.count)
        }
    }
}

// Says a packet of small messages, but for these.
fn small(page: &mut [u8], at: usize, name: &[u8], s: Small) -> usize
    ensures { sheet page.new result ≡ small_said name.now s (sheet page.old at) }
{
    named(
        page,
        at,
        name,
        b" sequence # channel # messages #",
        &[s.sequence.0, u64::from(s.channel_id), s.count as u64],
    )
}

// Says a packet of one piece.
fn slice(page: &mut [u8], at: usize, name: &[u8], s: Slice) -> usize
    ensures { sheet page.new result ≡ slice_said name.now s (sheet page.old at) }
{
    named(
        page,
        at,
        name,
        b" sequence # channel # message # slice # of # at # length #",
        &[
            s.sequence.0,
            u64::from(s.channel_id),
            s.message_id.0,
            s.slice_index.0,
            s.num_slices,
            s.place as u64,
            s.len as u64,
        ],
    )
}

// Says a name, and some words with numbers behind it.
fn named(page: &mut [u8], at: usize, name: &[u8], s: &[u8], numbers: &[u64]) -> usize
    ensures { sheet page.new result ≡ lined s.now numbers.now (said name.now (sheet page.old at)) }
{
    let a = page::text(page, at, name);
    page::line(page, a, s, numbers)
}

// Says some words for each entry of a table, with its numbers in them.
fn rows(page: &mut [u8], at: usize, s: &[u8], t: &[u64], width: usize, count: usize) -> usize
    ensures { sheet page.new result ≡ rows_said s.now width count t.now (sheet page.old at) }
{
    let mut a = at;
    let mut j = 0;
    for _ in 0..count {
        a = page::line(page, a, s, page::words_from(t, j));
        j = page::sum(j, width);
    }
    a
}

// So many bytes from a place on; none where they are not all there.
pub fn bytes_at(s: &[u8], place: usize, len: usize) -> &[u8]
    ensures { result.now ≡ bytes_at s.now place len }
{
    if s.len() < place || s.len() - place < len {
        return &[];
    }
    &s[place..place + len]
}

// The bytes from a place to another; none where they are not there.
pub fn bytes_to(s: &[u8], place: usize, end: usize) -> &[u8]
    ensures { result.now ≡ bytes_to_of s.now place end }
{
    if end < place {
        return &[];
    }
    bytes_at(s, place, end - place)
}

// Begins the k-th further line of an answer, behind the number of its line.
pub fn numbered(page: &mut [u8], at: usize, n: u64, k: usize) -> usize
    ensures { sheet page.new result ≡ number_said n k (sheet page.old at) }
{
    page::line(page, at, b"#.#: ", &[n, k as u64])
}

// The i-th message of a packet.
pub fn message_at<'a>(bytes: &'a [u8], messages: &[u64], i: usize) -> &'a [u8]
    ensures { result.now ≡ message_at_of bytes.now messages.now i }
{
    let j = page::after(page::sum(i, page::sum(i, i)));
    bytes_at(
        bytes,
        page::size(messages, j),
        page::size(messages, page::after(j)),
    )
}

// The id of the i-th message of a packet.
pub fn id_at(messages: &[u64], i: usize) -> u64
    ensures { result ≡ id_at messages.now i }
{
    page::word(messages, page::sum(i, page::sum(i, i)))
}

// The k-th packet of a round, by its table.
pub fn kept<'a>(out: &'a [u8], table: &[u64], k: usize) -> &'a [u8]
    ensures { result.now ≡ kept_at out.now table.now k }
{
    let j = page::sum(k, k);
    bytes_at(out, page::size(table, j), page::size(table, page::after(j)))
}

// Says what a round wrote.
pub fn sent(page: &mut [u8], at: usize, w: Written) -> usize
    ensures { sheet page.new result ≡ sent_said w (sheet page.old at) }
{
    page::line(
        page,
        at,
        b"sent # packets, # bytes, next sequence #, spent #",
        &[
            w.packets as u64,
            w.bytes as u64,
            w.next_sequence.0,
            w.budget.spent,
        ],
    )
}

// A line for each packet of a round, behind the number of the round's line. The buffers are lent one by
// one: each is a part of a larger one at the caller's, so a struct of them would be made for one call.
pub fn listed(
    page: &mut [u8],
    at: usize,
    n: u64,
    packets: usize,
    out: &[u8],
    table: &[u64],
    messages: &mut [u64],
    ranges: &mut [u64],
) -> usize
    ensures { Listed n out.now table.now packets
        (desk (sheet page.old at) messages.old ranges.old)
        (desk (sheet page.new result) messages.new ranges.new) }
{
    let mut a = at;
    for k in 0..packets {
        a = taken_apart(page, a, n, k, out, table, messages, ranges);
    }
    a
}

// The k-th packet of a round as bytes and in words.
fn taken_apart(
    page: &mut [u8],
    at: usize,
    n: u64,
    k: usize,
    out: &[u8],
    table: &[u64],
    messages: &mut [u64],
    ranges: &mut [u64],
) -> usize
    ensures { Apart n out.now table.now k
        (desk (sheet page.old at) messages.old ranges.old)
        (desk (sheet page.new result) messages.new ranges.new) }
{
    let s = kept(out, table, k);
    let a = shown(page, at, n, k, start(table, k), s);
    let d = read(s, messages, ranges);
    let b = told(page, a, d, messages, ranges);
    page::text(page, b, b"\n")
}

// Where the k-th packet of a round starts, by its table.
fn start(table: &[u64], k: usize) -> u64
    ensures { result ≡ start_at table.now k }
{
    page::word(table, page::sum(k, k))
}

// The k-th packet of a round as bytes.
fn shown(page: &mut [u8], at: usize, n: u64, k: usize, start: u64, s: &[u8]) -> usize
    ensures { sheet page.new result ≡ shown_said n k start s.now (sheet page.old at) }
{
    let a = page::line(
        page,
        at,
        b"#.#: at # length # ",
        &[n, k as u64, start, s.len() as u64],
    );
    let b = page::bytes(page, a, s);
    page::text(page, b, b" ")
}

// Reads a packet into tables of words.
pub fn read(bytes: &[u8], messages: &mut [u64], ranges: &mut [u64]) -> Decoded
    ensures { Reads bytes.now messages.old ranges.old messages.new ranges.new result }
{
    let before = range_words::from_words(ranges);
    let d = packet::decode(bytes, messages, before, ranges.len() / RANGE);
    range_words::to_words(ranges, d.ranges);
    d.answer
}
