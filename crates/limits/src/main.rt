#![tactic(auto)]
// What a packet can just count, and one more: 65,535 messages, and lengths that take two bytes and four.
// These packets are too large for a script.
//
// Each line says a call of `packet::encode` or `packet::decode`, its answer, and a digest of the memory that
// it wrote to, lent or not: a byte or word that should have stayed shows.
ghost use Rattle.std.specs.Prelude.{◌≡◌, length};

use packet::Packet;
use packet_ack::{RANGES, Range};
use packet_small::Small;
use words::{LIMIT, Refusal, Sequence};

// The most messages that a packet counts, and one more.
const MOST: usize = 65_535;

const MORE: usize = 65_536;

// The words of their tables, three for each message. The last message stands behind those of the most.
const MOST_WORDS: usize = 196_605;

const MORE_WORDS: usize = 196_608;

// More bytes than any of these packets has.
const ROOM: usize = 131_088;

// The bytes of the store, a length that takes four bytes; one less, which takes two; one more than there are.
const STORE: usize = 16_384;

const SHORTER: usize = 16_383;

const PAST: usize = 16_385;

// What stands in a table of ranges, which no packet of messages reads or fills.
const NONE: Range = Range { start: 0, end: 0 };

// What lent memory holds at first.
const BYTE: u8 = 0xa5;

const WORD: u64 = 0xa5a5_a5a5_a5a5_a5a5;

// The type of a packet, at its number on the wire.
#[derive(Clone, Copy, Debug, PartialEq, Eq)]
enum Kind {
    SmallReliable,
    SmallUnreliable,
}

impl From<Kind> for u8 {
    fn from(kind: Kind) -> u8 {
        match kind {
            Kind::SmallReliable => 0,
            Kind::SmallUnreliable => 1,
        }
    }
}

fn main() {
    cases(Kind::SmallReliable, 131_075, 16_391, 16_394);
    cases(Kind::SmallUnreliable, 65_540, 16_390, 16_393);
}

// The cases of a type of packet, with the bytes that it takes for the most messages, all empty, and for a long one.
fn cases(kind: Kind, most: usize, shorter: usize, longer: usize) {
    write(kind, 0, 1, MOST_WORDS, SHORTER, shorter);
    write(kind, 0, 1, MOST_WORDS, SHORTER, shorter.saturating_sub(1));
    write(kind, 0, 1, MOST_WORDS, STORE, longer);
    write(kind, 0, 1, MOST_WORDS, STORE, longer.saturating_sub(1));
    read(kind, most, MOST_WORDS);
    read(kind, most, MOST_WORDS - 1);
    read(kind, most.saturating_sub(1), MOST_WORDS);
    write(kind, 0, MOST, 3, 0, most);
    write(kind, 0, MOST, 3, 0, most.saturating_sub(1));
    more(kind);
}

// One message more is 12, before 1; 13 and 10 come before it, of the table and of the last message. Where the
// packet has only the most, the last is not judged.
fn more(kind: Kind) {
    write(kind, 0, MORE, 0, 0, ROOM);
    write(kind, 0, MORE, 0, 0, 0);
    write(kind, LIMIT, MORE, 0, 0, ROOM);
    write(kind, 0, MORE, 1, 0, ROOM);
    write(kind, 0, MORE, 0, PAST, ROOM);
    write(kind, 0, MOST, 0, PAST, ROOM);
}

// Writes a packet to so many bytes. Its table, of one message more, is lent from a word on; all is 0 but the
// last length.
fn write(kind: Kind, sequence: u64, count: usize, from: usize, last: usize, room: usize) {
    said(
        b"write type # sequence # messages #, ",
        &[u64::from(u8::from(kind)), sequence, count as u64],
    );
    let p = Small {
        sequence: Sequence(sequence),
        channel_id: 0,
        count,
    };
    let mut t = table(0);
    let mut out = bytes(BYTE);
    put(named(kind, p), from, last, room, &mut t, &mut out);
}

fn named(kind: Kind, p: Small) -> Packet {
    match kind {
        Kind::SmallReliable => Packet::SmallReliable(p),
        Kind::SmallUnreliable => Packet::SmallUnreliable(p),
    }
}

fn table(v: u64) -> [u64; MORE_WORDS]
    ensures { 196608 ≡ length result }
{
    [v; MORE_WORDS]
}

fn bytes(v: u8) -> [u8; ROOM]
    ensures { 131088 ≡ length result }
{
    [v; ROOM]
}

fn put(p: Packet, from: usize, last: usize, room: usize, t: &mut [u64], out: &mut [u8]) {
    if let Some(len) = t.last_mut() {
        *len = last as u64;
    }
    let n = page::part(room, out);
    let r = encode(p, page::words_from(t, from), &mut out[..n]);
    said(b"last # to # bytes: ", &[last as u64, room as u64]);
    written(r);
    said(b"; digest #\n", &[say::digest_bytes(out)]);
}

fn encode(p: Packet, t: &[u64], out: &mut [u8]) -> Result<usize, Refusal> {
    said(b"of # words, ", &[t.len() as u64]);
    let store = [b'a'; STORE];
    packet::encode(out, p, t, [NONE; RANGES], 0, &store)
}

fn written(r: Result<usize, Refusal>) {
    match r {
        Ok(n) => said(b"written #", &[n as u64]),
        Err(e) => refused(e),
    }
}

// Reads the most messages, all empty, from so many bytes into a table of so many words.
fn read(kind: Kind, n: usize, words: usize) {
    said(
        b"read type # from # bytes, to # words: ",
        &[u64::from(u8::from(kind)), n as u64, words as u64],
    );
    let mut s = bytes(0);
    let mut t = table(WORD);
    get(kind, n, words, &mut s, &mut t);
}

fn get(kind: Kind, n: usize, words: usize, s: &mut [u8], t: &mut [u64]) {
    say::text(s, 0, &[u8::from(kind), 0, 0, 0xff, 0xff]);
    let k = page::part(n, s);
    let m = page::part(words, t);
    let r = packet::decode(&s[..k], &mut t[..m], [NONE; RANGES], 0);
    decoded(r.answer);
    said(b"; digest #\n", &[say::digest_words(t)]);
}

fn decoded(d: Result<(Packet, usize), Refusal>) {
    match d {
        Ok((p, used)) => {
            whole(p);
            said(b"; used #", &[used as u64]);
        }
        Err(e) => refused(e),
    }
}

fn whole(p: Packet) {
    match p {
        Packet::SmallReliable(q) => small(b"SmallReliable", q),
        Packet::SmallUnreliable(q) => small(b"SmallUnreliable", q),
        _ => said(b"another type", &[]),
    }
}

fn small(name: &[u8], p: Small) {
    said(name, &[]);
    said(
        b" sequence # channel # messages #",
        &[p.sequence.0, u64::from(p.channel_id), p.count as u64],
    );
}

// Says a refusal, and by itself the number that a caller gets.
fn refused(e: Refusal) {
    let mut page = [0u8; 64];
    let a = page::refusal(&mut page, 0, e);
    page::flush(&page, a);
    said(b", number #", &[e.number() as u64]);
}

// Says some words, with a number at each `#`.
fn said(s: &[u8], numbers: &[u64]) {
    let mut page = [0u8; 64];
    let a = page::line(&mut page, 0, s, numbers);
    page::flush(&page, a);
}
