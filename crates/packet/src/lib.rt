#![tactic(auto)]
// The five kinds of packets: one reader and one writer for all.
//
// A packet's messages and ranges stand in tables that the caller lends: three words for a message
// (id, place, length; the id is 0 where the kind has none), and records of ranges. Places are those
// of the input for the reader, and those of the store for the writer.
ghost use Rattle.std.specs.Prelude.{◌≡◌, length, take};
ghost use Rattle.octets.specs.Writer.{put_of, left};
ghost use Rattle.packet_ack.specs.Ack.{RANGES};
ghost use Rattle.packet.specs.Packet.{DecodeGives};
ghost use Rattle.packet.specs.Write.{encoded, bytes_of};
ghost use Rattle.packet.specs.Steps.{lent_of, ReadGives};

use packet_ack::{Ack, RANGES, Range};
use packet_slice::Slice;
use packet_small::Small;
use words::Refusal;

// A packet beside its tables.
#[derive(Clone, Copy, Debug, PartialEq, Eq)]
pub enum Packet {
    SmallReliable(Small),
    SmallUnreliable(Small),
    ReliableSlice(Slice),
    UnreliableSlice(Slice),
    Ack(Ack),
}

// The packet that was read and how many bytes it used, or the refusal; and the table of ranges afterwards, by value.
// Not `After`, which is for states: the table is the caller's own, and `ranges` says so.
#[derive(Clone, Copy)]
pub struct DecodedTable {
    pub answer: Result<(Packet, usize), Refusal>,
    pub ranges: [Range; RANGES],
}

// Reads the packet at the front of some bytes, and fills the table of its kind; more bytes may follow.
pub fn from_bytes(
    bytes: &[u8],
    messages: &mut [u64],
    ranges: &mut [Range],
) -> Result<(Packet, usize), Refusal>
    ensures { DecodeGives bytes.now messages.old ranges.old messages.new ranges.new result }
{
    let (kind, at) = octets::get_u8(bytes, 0)?;
    match kind {
        0 => {
            let (p, used) = packet_small::read_small(bytes, at, true, messages)?;
            Ok((Packet::SmallReliable(p), used))
        }
        1 => {
            let (p, used) = packet_small::read_small(bytes, at, false, messages)?;
            Ok((Packet::SmallUnreliable(p), used))
        }
        2 => {
            let (p, used) = packet_slice::read_slice(bytes, at, true)?;
            Ok((Packet::ReliableSlice(p), used))
        }
        3 => {
            let (p, used) = packet_slice::read_slice(bytes, at, false)?;
            Ok((Packet::UnreliableSlice(p), used))
        }
        4 => {
            let (p, used) = packet_ack::read_ack(bytes, at, ranges)?;
            Ok((Packet::Ack(p), used))
        }
        _ => Err(Refusal::InvalidPacketType),
    }
}

// Writes a packet to the front of the lent bytes, or refuses and changes nothing. Messages and ranges
// are those of the tables; payloads are parts of the store.
pub fn to_bytes(
    out: &mut [u8],
    packet: Packet,
    messages: &[u64],
    ranges: &[Range],
    store: &[u8],
) -> Result<usize, Refusal>
    ensures { (put_of result ≡ encoded packet messages.now ranges.now store.now (length out.old))
        × (out.new ≡ left (put_of result) 0 (bytes_of packet messages.now ranges.now store.now) out.old) }
{
    match packet {
        Packet::SmallReliable(p) => packet_small::put_small(out, 0, true, p, messages, store),
        Packet::SmallUnreliable(p) => packet_small::put_small(out, 0, false, p, messages, store),
        Packet::ReliableSlice(p) => packet_slice::put_slice(out, 0, true, p, store),
        Packet::UnreliableSlice(p) => packet_slice::put_slice(out, 0, false, p, store),
        Packet::Ack(p) => packet_ack::put_ack(out, 0, p, ranges),
    }
}

// Reads as `from_bytes` does, into the first records of a table of ranges by value: of so many, or of all.
pub fn decode(
    bytes: &[u8],
    messages: &mut [u64],
    ranges: [Range; RANGES],
    room: usize,
) -> DecodedTable
    ensures { ReadGives bytes.now messages.old ranges (lent_of room) messages.new result }
{
    let mut ranges = ranges;
    let n = room.min(RANGES);
    let answer = from_bytes(bytes, messages, &mut ranges[..n]);
    DecodedTable { answer, ranges }
}

// Writes as `to_bytes` does, with ranges from the first records of a table by value: of so many, or of all.
pub fn encode(
    out: &mut [u8],
    packet: Packet,
    messages: &[u64],
    ranges: [Range; RANGES],
    held: usize,
    store: &[u8],
) -> Result<usize, Refusal>
    ensures { (put_of result ≡ encoded packet messages.now (take (lent_of held) ranges) store.now (length out.old))
        × (out.new ≡ left (put_of result) 0 (bytes_of packet messages.now (take (lent_of held) ranges) store.now) out.old) }
{
    let n = held.min(RANGES);
    to_bytes(out, packet, messages, &ranges[..n], store)
}
