#![tactic(auto)]
// Packets of small messages, read and written: type 0, SmallReliable, and type 1, SmallUnreliable,
// which is the same without the ids. `ids` tells the two apart: a bool, as in the definitions that the
// promises of the public functions cite (`small`, `type_byte_of`).
//
// Messages are named by a lent table, three words for each: id, place, length. Words and no records,
// since the C interface lends words (`bench_calls::bench_write`) and a caller of `packet` does. The reader walks the
// input twice, and each message takes at least a byte of it, so a packet that claims more messages
// than it has costs no more than its own length. The writer judges the whole table before it writes.
ghost use Rattle.std.specs.Prelude.{◌≡◌, true, map, ◌+◌, ◌*◌, ◌≤◌, ◌<◌, length, leb};
ghost use Rattle.words.specs.Sizes.{LIMIT, MAX_MESSAGES};
ghost use Rattle.words.specs.Lists.{splice, all, total};
ghost use Rattle.octets.specs.Reader.{num_of, Good};
ghost use Rattle.octets.specs.Writer.{put_of, left};
ghost use Rattle.packet_small.specs.Small.{id_of, message, messages, small, RECORD, judged, tabled, told, item_of, read_of};
ghost use Rattle.packet_small.specs.Write.{type_byte_of, id_bytes, id_said, said_of, message_bytes, messages_bytes, head_bytes, listed, stored, sayable, record_at, small_of, put_small_of};
ghost use Rattle.packet_small.specs.Steps.{walk_of, filled, head_len, id_len_of, message_len, size, said, record_of};

use words::{LIMIT, MAX_MESSAGES, MessageId, Refusal, Sequence};

// Words of the table for each message.
pub const RECORD: usize = 3;

// Bytes before the messages beside the sequence: type, channel and two-byte count.
pub const HEAD: usize = 4;

// A message in the input or in a store: its id, where its bytes start, and how many they are.
#[derive(Clone, Copy)]
struct Message {
    id: MessageId,
    place: usize,
    len: usize,
}

// What a packet says beside its messages, and how many they are.
#[derive(Clone, Copy, Debug, PartialEq, Eq)]
pub struct Small {
    pub sequence: Sequence,
    pub channel_id: u8,
    pub count: usize,
}

// The id at a place, where the kind has ids.
fn get_id(s: &[u8], at: usize, ids: bool) -> Result<(u64, usize), Refusal>
    ensures { num_of result ≡ id_of ids s.now at }
{
    if ids {
        return octets::get_varint(s, at);
    }
    Ok((0, at))
}

// The message at a place. Inlined into both walks: as a call it hands its answer over in memory, which costs them
// more than half of their time.
#[inline(always)]
fn get_message(s: &[u8], at: usize, ids: bool) -> Result<Message, Refusal>
    ensures { item_of result ≡ message ids s.now at }
{
    let (id, a) = get_id(s, at, ids)?;
    let (place, len) = octets::get_bytes_with_varint_length(s, a)?;
    Ok(Message {
        id: MessageId(id),
        place,
        len,
    })
}

// The place after n messages.
fn walk_messages(s: &[u8], from: usize, ids: bool, n: usize) -> Result<usize, Refusal>
    ensures { put_of result ≡ walk_of (messages ids n s.now from) }
{
    let mut at = from;
    for _ in 0..n {
        let m = get_message(s, at, ids)?;
        at = m.place + m.len;
    }
    Ok(at)
}

// Fills the table with n messages that were walked before.
fn fill_table(s: &[u8], from: usize, ids: bool, n: usize, table: &mut [u64])
    requires good { Good (messages ids n s.now from) }
    requires n_in_bounds { RECORD * n ≤ length table.old }
    ensures { table.new ≡ filled (messages ids n s.now from) 0 table.old }
{
    let mut at = from;
    for i in 0..n {
        let m = get_message(s, at, ids).unwrap();
        let j = RECORD * i;
        table[j] = m.id.0;
        table[j + 1] = m.place as u64;
        table[j + 2] = m.len as u64;
        at = m.place + m.len;
    }
}

// Reads what follows the type byte, from a place on, and fills the table if all is good and it is large enough.
pub fn read_small(
    s: &[u8],
    at: usize,
    ids: bool,
    table: &mut [u64],
) -> Result<(Small, usize), Refusal>
    ensures { (read_of result ≡ told (judged (small ids s.now at) (length table.old)))
        × (table.new ≡ tabled (judged (small ids s.now at) (length table.old)) table.old) }
{
    let (seq, a) = octets::get_varint(s, at)?;
    if s.len() <= a {
        return Err(Refusal::BufferTooShort);
    }
    let channel_id = s[a];
    let (k, b) = octets::get_u16(s, a + 1)?;
    let count = k as usize;
    let next = walk_messages(s, b, ids, count)?;
    if table.len() / RECORD < count {
        return Err(Refusal::TableFull);
    }
    fill_table(s, b, ids, count, table);
    let sequence = Sequence(seq);
    Ok((
        Small {
            sequence,
            channel_id,
            count,
        },
        next,
    ))
}

// How many bytes an id takes.
fn id_len(ids: bool, id: u64) -> usize
    ensures { (result ≡ id_len_of ids id) × (result ≤ 8) }
{
    if ids {
        return octets::form_len(id);
    }
    0
}

// The message of a record of the table.
fn message_at(table: &[u64], i: usize) -> Message
    requires { RECORD * i + RECORD ≤ length table.now }
    ensures { record_of result.id.0 result.place result.len ≡ record_at table.now i }
{
    let j = RECORD * i;
    Message {
        id: MessageId(table[j]),
        place: table[j + 1] as usize,
        len: table[j + 2] as usize,
    }
}

// Whether the bytes of all messages of a table are parts of a store of m bytes.
fn all_stored(table: &[u64], count: usize, m: usize) -> bool
    requires { RECORD * count ≤ length table.now }
    ensures { result ≡ all (stored m) (listed table.now 0 count) }
{
    for i in 0..count {
        let e = message_at(table, i);
        if m < e.place || m - e.place < e.len {
            return false;
        }
    }
    true
}

// Whether varints can say all numbers of the messages of a table.
fn all_sayable(table: &[u64], count: usize, ids: bool) -> bool
    requires { RECORD * count ≤ length table.now }
    ensures { result ≡ all (sayable ids) (listed table.now 0 count) }
{
    for i in 0..count {
        let e = message_at(table, i);
        if ids && LIMIT <= e.id.0 {
            return false;
        }
        if LIMIT <= e.len as u64 {
            return false;
        }
    }
    true
}

// Whether all messages of a table, written, fit in some room.
fn all_fit(table: &[u64], count: usize, ids: bool, room: usize) -> bool
    requires { RECORD * count ≤ length table.now }
    ensures { result ≡ leb (total (size ids) (listed table.now 0 count)) room }
{
    let mut spare = room;
    for i in 0..count {
        let e = message_at(table, i);
        let head = id_len(ids, e.id.0) + octets::form_len(e.len as u64);
        if spare < head || spare - head < e.len {
            return false;
        }
        spare = spare - head - e.len;
    }
    true
}

// The type of a packet.
fn type_byte(ids: bool) -> u8
    ensures { result ≡ type_byte_of ids }
{
    if ids {
        return 0;
    }
    1
}

// Writes what stands before the messages, for which there is room, and answers the place after it.
pub fn write_head(out: &mut [u8], at: usize, ids: bool, packet: Small) -> usize
    requires sequence_bound { packet.sequence.0 < LIMIT }
    requires count_bound { packet.count ≤ MAX_MESSAGES }
    requires sequence_in_bounds { at + head_len packet.sequence.0 ≤ length out.old }
    ensures { (result ≡ at + head_len packet.sequence.0)
        × (out.new ≡ splice at (head_bytes ids packet.sequence.0 packet.channel_id packet.count) out.old) }
{
    out[at] = type_byte(ids);
    let sequence = packet.sequence;
    let a = octets::write_varint(out, at + 1, sequence.0);
    out[a] = packet.channel_id;
    let count = packet.count as u16;
    octets::write_u16(out, a + 1, count)
}

// Writes an id, where the kind has ids, for which there is room.
fn write_id(out: &mut [u8], at: usize, ids: bool, id: MessageId) -> usize
    requires id_bound { id_said ids id.0 < LIMIT }
    requires id_in_bounds { at + id_len_of ids id.0 ≤ length out.old }
    ensures { (result ≡ at + id_len_of ids id.0) × (out.new ≡ splice at (id_bytes ids (id_said ids id.0)) out.old) }
{
    if ids {
        return octets::write_varint(out, at, id.0);
    }
    at
}

// Writes one message, for which there is room, and answers the place after it.
pub fn write_message(out: &mut [u8], at: usize, ids: bool, id: MessageId, bytes: &[u8]) -> usize
    requires id_bound { id_said ids id.0 < LIMIT }
    requires bytes_len_bound { length bytes.now < LIMIT }
    requires bytes_in_bounds { at + message_len ids id.0 (length bytes.now) ≤ length out.old }
    ensures { (result ≡ at + message_len ids id.0 (length bytes.now))
        × (out.new ≡ splice at (message_bytes ids (said ids id.0 bytes.now)) out.old) }
{
    let a = write_id(out, at, ids, id);
    octets::write_bytes_with_varint_length(out, a, bytes)
}

// Writes the messages of a table, which were judged, and answers the place after them.
fn write_messages(
    out: &mut [u8],
    from: usize,
    ids: bool,
    table: &[u64],
    count: usize,
    store: &[u8],
) -> usize
    requires count_in_bounds { RECORD * count ≤ length table.now }
    requires count_value { all (stored (length store.now)) (listed table.now 0 count) ≡ true }
    requires count_value_2 { all (sayable ids) (listed table.now 0 count) ≡ true }
    requires count_in_bounds_2 { from + total (size ids) (listed table.now 0 count) ≤ length out.old }
    ensures { (result ≡ from + total (size ids) (listed table.now 0 count))
        × (out.new ≡ splice from (messages_bytes ids (map (said_of ids store.now) (listed table.now 0 count))) out.old) }
{
    let mut at = from;
    for i in 0..count {
        let e = message_at(table, i);
        let end = e.place + e.len;
        at = write_message(out, at, ids, e.id, &store[e.place..end]);
    }
    at
}

// Writes the packet whose messages a table names as parts of a store, or refuses and changes nothing.
pub fn put_small(
    out: &mut [u8],
    at: usize,
    ids: bool,
    packet: Small,
    table: &[u64],
    store: &[u8],
) -> Result<usize, Refusal>
    ensures { (put_of result ≡ put_small_of ids packet.sequence.0 packet.channel_id table.now packet.count store.now at (length out.old))
        × (out.new ≡ left (put_of result) at (small_of ids packet.sequence.0 packet.channel_id table.now packet.count store.now) out.old) }
{
    let count = packet.count;
    if table.len() / RECORD < count || !all_stored(table, count, store.len()) {
        return Err(Refusal::BadStore);
    }
    let sequence = packet.sequence;
    if LIMIT <= sequence.0 || !all_sayable(table, count, ids) {
        return Err(Refusal::BadNumber);
    }
    if MAX_MESSAGES < count {
        return Err(Refusal::TooLong);
    }
    let room = out.len().saturating_sub(at);
    let head = octets::form_len(sequence.0) + HEAD;
    if room < head || !all_fit(table, count, ids, room - head) {
        return Err(Refusal::BufferTooShort);
    }
    let a = write_head(out, at, ids, packet);
    Ok(write_messages(out, a, ids, table, count, store))
}
