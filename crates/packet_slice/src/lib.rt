#![tactic(auto)]
// Packets of one piece, read and written: type 2, ReliableSlice, and type 3, UnreliableSlice, which
// has the same layout and judges its payload less. `reliable` tells the two apart: a bool, as in the
// definitions that the promises of the public functions cite (`slice`, `type_byte_of`).
ghost use Rattle.std.specs.Prelude.{◌≡◌, ◌+◌, ◌≤◌, ◌<◌, length};
ghost use Rattle.words.specs.Sizes.{LIMIT};
ghost use Rattle.words.specs.Lists.{splice};
ghost use Rattle.octets.specs.Writer.{put_of, left};
ghost use Rattle.octets.specs.Varint.{var_len};
ghost use Rattle.packet_slice.specs.Slice.{slice, slice_of, read_of};
ghost use Rattle.packet_slice.specs.Write.{type_byte_of, slice_bytes, slice_said, put_slice_of};
ghost use Rattle.packet_slice.specs.Steps.{front, front_of, label, label_of, front_bytes, label_bytes, slice_len_of, Judged};

use words::{LIMIT, MAX_NUM_SLICES, MessageId, Refusal, SLICE_SIZE, Sequence, SliceIndex};

// A piece, whose payload is a part of the input or of a lent store.
#[derive(Clone, Copy, Debug, PartialEq, Eq)]
pub struct Slice {
    pub sequence: Sequence,
    pub channel_id: u8,
    pub message_id: MessageId,
    pub slice_index: SliceIndex,
    pub num_slices: u64,
    pub place: usize,
    pub len: usize,
}

// The packet's number and its channel.
#[derive(Clone, Copy)]
struct Front {
    sequence: Sequence,
    channel_id: u8,
}

// Which piece of how many of which message.
#[derive(Clone, Copy)]
struct Label {
    message_id: MessageId,
    slice_index: SliceIndex,
    num_slices: u64,
}

// Reads the sequence and the channel, and answers the place after them.
fn get_front(s: &[u8], at: usize) -> Result<(Front, usize), Refusal>
    ensures { front_of result ≡ front s.now at }
{
    let (sequence, a) = octets::get_varint(s, at)?;
    if s.len() <= a {
        return Err(Refusal::BufferTooShort);
    }
    let front = Front {
        sequence: Sequence(sequence),
        channel_id: s[a],
    };
    Ok((front, a + 1))
}

// Reads the message's id, the slice index and the number of slices, and answers the place after them.
fn get_label(s: &[u8], at: usize) -> Result<(Label, usize), Refusal>
    ensures { label_of result ≡ label s.now at }
{
    let (id, a) = octets::get_varint(s, at)?;
    let (index, b) = octets::get_varint(s, a)?;
    let (num_slices, c) = octets::get_varint(s, b)?;
    let label = Label {
        message_id: MessageId(id),
        slice_index: SliceIndex(index),
        num_slices,
    };
    Ok((label, c))
}

// Reads what follows the type byte, from a place on, and answers the place after the packet.
pub fn read_slice(s: &[u8], at: usize, reliable: bool) -> Result<(Slice, usize), Refusal>
    ensures { read_of result ≡ slice reliable s.now at }
{
    let (front, a) = get_front(s, at)?;
    let (label, b) = get_label(s, a)?;
    let num_slices = label.num_slices;
    if num_slices < 1 || MAX_NUM_SLICES < num_slices {
        return Err(Refusal::InvalidNumSlices);
    }
    let (place, len) = octets::get_bytes_with_varint_length(s, b)?;
    if reliable && len < 1 {
        return Err(Refusal::EmptySlice);
    }
    if reliable && SLICE_SIZE < len {
        return Err(Refusal::SliceSizeAboveLimit);
    }
    let packet = Slice {
        sequence: front.sequence,
        channel_id: front.channel_id,
        message_id: label.message_id,
        slice_index: label.slice_index,
        num_slices,
        place,
        len,
    };
    Ok((packet, place + len))
}

// The length of a packet, written, whose payload is small enough to be said.
pub fn slice_len(packet: Slice) -> usize
    requires { packet.len < LIMIT }
    ensures { result ≡ slice_len_of (slice_of packet) }
{
    let front = 2 + octets::form_len(packet.sequence.0);
    let label = octets::form_len(packet.message_id.0)
        + octets::form_len(packet.slice_index.0)
        + octets::form_len(packet.num_slices);
    let len = packet.len;
    front + label + octets::form_len(len as u64) + len
}

// The byte that says which of the two kinds a packet is.
fn type_byte(reliable: bool) -> u8
    ensures { result ≡ type_byte_of reliable }
{
    if reliable { 2 } else { 3 }
}

// Writes the type byte, the sequence and the channel, which were judged to fit.
fn write_front(out: &mut [u8], at: usize, reliable: bool, front: Front) -> usize
    requires sequence_bound { front.sequence.0 < LIMIT }
    requires sequence_in_bounds { at + (var_len front.sequence.0 + 2) ≤ length out.old }
    ensures { (result ≡ at + (var_len front.sequence.0 + 2))
        × (out.new ≡ splice at (front_bytes reliable front.sequence.0 front.channel_id) out.old) }
{
    out[at] = type_byte(reliable);
    let sequence = front.sequence;
    let a = octets::write_varint(out, at + 1, sequence.0);
    out[a] = front.channel_id;
    a + 1
}

// Writes the message's id, the slice index and the number of slices, which were judged to fit.
fn write_label(out: &mut [u8], at: usize, label: Label) -> usize
    requires id_bound { label.message_id.0 < LIMIT }
    requires index_bound { label.slice_index.0 < LIMIT }
    requires num_slices_bound { label.num_slices < LIMIT }
    requires num_slices_in_bounds { at + (var_len label.message_id.0 + var_len label.slice_index.0 + var_len label.num_slices) ≤ length out.old }
    ensures { (result ≡ at + (var_len label.message_id.0 + var_len label.slice_index.0 + var_len label.num_slices))
        × (out.new ≡ splice at (label_bytes label.message_id.0 label.slice_index.0 label.num_slices) out.old) }
{
    let a = octets::write_varint(out, at, label.message_id.0);
    let b = octets::write_varint(out, a, label.slice_index.0);
    octets::write_varint(out, b, label.num_slices)
}

// Writes a packet that was judged to fit, and answers the place after it.
pub fn write_slice(out: &mut [u8], at: usize, reliable: bool, packet: Slice, store: &[u8]) -> usize
    requires { Judged (slice_of packet) (length store.now) at (length out.old) }
    ensures { (result ≡ at + length (slice_bytes reliable (slice_said store.now (slice_of packet))))
        × (out.new ≡ splice at (slice_bytes reliable (slice_said store.now (slice_of packet))) out.old) }
{
    let front = Front {
        sequence: packet.sequence,
        channel_id: packet.channel_id,
    };
    let a = write_front(out, at, reliable, front);
    let label = Label {
        message_id: packet.message_id,
        slice_index: packet.slice_index,
        num_slices: packet.num_slices,
    };
    let b = write_label(out, a, label);
    let place = packet.place;
    let end = place + packet.len;
    octets::write_bytes_with_varint_length(out, b, &store[place..end])
}

// Writes the packet whose payload is a part of a store, or refuses and changes nothing.
pub fn put_slice(
    out: &mut [u8],
    at: usize,
    reliable: bool,
    packet: Slice,
    store: &[u8],
) -> Result<usize, Refusal>
    ensures { (put_of result ≡ put_slice_of reliable (slice_of packet) store.now at (length out.old))
        × (out.new ≡ left (put_of result) at (slice_bytes reliable (slice_said store.now (slice_of packet))) out.old) }
{
    let place = packet.place;
    if store.len() < place || store.len() - place < packet.len {
        return Err(Refusal::BadStore);
    }
    if LIMIT <= packet.sequence.0
        || LIMIT <= packet.message_id.0
        || LIMIT <= packet.slice_index.0
        || LIMIT <= packet.num_slices
        || LIMIT <= packet.len as u64
    {
        return Err(Refusal::BadNumber);
    }
    if out.len().saturating_sub(at) < slice_len(packet) {
        return Err(Refusal::BufferTooShort);
    }
    Ok(write_slice(out, at, reliable, packet, store))
}
