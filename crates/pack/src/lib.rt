#![tactic(auto)]
// Packs and encodes what a sending round chose to send, for reliable and unreliable channels alike.
// `ids` tells a reliable round from an unreliable one, whose small messages have no ids.
//
// What was chosen stands in a table of items. Packing writes a table of rows, one for each packet: a
// group of small messages, or the piece at an item. Encoding then reads both, and copies each payload
// once.
ghost use Rattle.std.specs.Prelude.{set, ◌≡◌, [], ◌∷◌, ◌+◌, ◌*◌, ◌-◌, ◌≤◌, ◌<◌, length};
ghost use Rattle.words.specs.Sizes.{LIMIT, SLICE_SIZE, PIECES, MAX_MESSAGES};
ghost use Rattle.words.specs.Lists.{splice, total, All};
ghost use Rattle.words.specs.Pieces.{pieces_of, piece_len_of};
ghost use Rattle.packet_slice.specs.Slice.{slice_of};
ghost use Rattle.pack.specs.Pack.{item_of, no_item, item_at, items_in, items_of, packed_len, pack};
ghost use Rattle.pack.specs.Encode.{pack_bytes, round_refusal, out_after, table_after};
ghost use Rattle.pack.specs.Rows.{no_row, smalls, pack_of, packs_of, Sound, slice_item, Packs, Sendable, PackGoes, Chosen, Ready, round_number, verdict_of};
ghost use Rattle.pack.specs.Round.{ITEMS, Gives};
ghost use Rattle.pack.specs.Steps.{open_row, piece_row, closed, pieced, MOST, PackedTo, lent_of, items_bytes};

use packet_slice::Slice;
use packet_small::{HEAD, Small};
use words::{LANES, LIMIT, MessageId, PIECES, Refusal, SLICE_SIZE, SLOTS, Sequence, SliceIndex};

// Most items of a round: every small message and every piece that a channel end can hold.
pub const ITEMS: usize = SLOTS + LANES * PIECES;

// Words of the lent table for each packet: start and length.
const ENTRY: usize = 2;

// What a round chose. A small message has num 0 and lies in the small store; any other item is the
// piece `index` of `num` and lies in the lanes.
#[derive(Clone, Copy, Debug, PartialEq, Eq)]
pub struct Item {
    pub num: usize,
    pub id: MessageId,
    pub index: SliceIndex,
    pub place: usize,
    pub len: usize,
}

// A packet. Where num is 0 it is a group: the small messages among the items from `first` to `end`,
// `count` in all. Any other is the piece at the first item.
#[derive(Clone, Copy)]
struct Row {
    num: usize,
    first: usize,
    end: usize,
    count: usize,
}

// A packed round: how many packets it has, and how long they are, encoded.
#[derive(Clone, Copy)]
struct Packed {
    packets: usize,
    bytes: usize,
}

// A counted byte budget: what a round was allowed, and what it spent.
#[derive(Clone, Copy, Debug, PartialEq, Eq)]
pub struct Budget {
    pub allowed: u64,
    pub spent: u64,
}

// What a round wrote: how many packets, how many bytes, the sequence after the last, and its budget.
#[derive(Clone, Copy, Debug, PartialEq, Eq)]
pub struct Written {
    pub packets: usize,
    pub bytes: usize,
    pub next_sequence: Sequence,
    pub budget: Budget,
}

// What packing carries from item to item: the packets put out so far, their bytes, and the open
// group, which is the small messages from the first item on.
#[derive(Clone, Copy)]
struct Packing {
    packets: usize,
    bytes: usize,
    first: usize,
    small_messages: usize,
    small_messages_bytes: usize,
}

impl Row {
    // Inlined, so that a table of it is filled at once, and not filled and then set entry by entry.
    #[inline(always)]
    fn blank() -> Row
        ensures { result ≡ no_row }
    {
        Row {
            num: 0,
            first: 0,
            end: 0,
            count: 0,
        }
    }
}

impl Item {
    // No item: what a table has before a round chooses. Inlined, as a blank row is.
    #[inline(always)]
    pub fn blank() -> Item
        ensures { result ≡ no_item }
    {
        Item {
            num: 0,
            id: MessageId(0),
            index: SliceIndex(0),
            place: 0,
            len: 0,
        }
    }

    // The item's piece, as its packet says it.
    fn slice(self, sequence: Sequence, channel_id: u8) -> Slice
        ensures { slice_of result ≡ slice_item sequence.0 channel_id (item_of self) }
    {
        Slice {
            sequence,
            channel_id,
            message_id: self.id,
            slice_index: self.index,
            num_slices: self.num as u64,
            place: self.place,
            len: self.len,
        }
    }
}

// Where a round's payloads lie and on which channel it goes.
#[derive(Clone, Copy)]
pub struct Lent<'a> {
    pub ids: bool,
    pub channel_id: u8,
    pub small: &'a [u8],
    pub lanes: &'a [u8],
}

// How many pieces a message has.
pub fn num_slices(len: usize) -> usize
    requires { len ≤ PIECES * SLICE_SIZE }
    ensures { result ≡ pieces_of len }
{
    len.div_ceil(SLICE_SIZE)
}

// How long piece i of a message is.
pub fn slice_len(len: usize, i: usize) -> usize
    requires len_bound { len ≤ PIECES * SLICE_SIZE }
    requires i_bound { i * SLICE_SIZE ≤ len }
    ensures { result ≡ piece_len_of len i }
{
    if i + 1 == num_slices(len) {
        return len - i * SLICE_SIZE;
    }
    SLICE_SIZE
}

// A small message's size for packing, which is its length in a packet.
fn serialized_size(ids: bool, item: Item) -> usize
    requires { item.len ≤ SLICE_SIZE }
    ensures { (result ≡ packed_len ids (item_of item)) × (result ≤ MOST) }
{
    let size = item.len + octets::form_len(item.len as u64);
    if ids {
        return size + octets::form_len(item.id.0);
    }
    size
}

// Puts out the open group, which ends before item i, and opens the next one there.
fn put_group(packs: &mut [Row], i: usize, sequence: Sequence, mut p: Packing) -> Packing
    requires packets_in_bounds { p.packets < length packs.old }
    requires packets_bound { sequence.0 + p.packets < 2 * LIMIT }
    requires small_messages_bytes_bound { p.bytes + p.small_messages_bytes < LIMIT }
    ensures { (result ≡ closed sequence.0 i p) × (packs.new ≡ set packs.old p.packets (open_row p i)) }
{
    let k = p.packets;
    packs[k] = Row {
        num: 0,
        first: p.first,
        end: i,
        count: p.small_messages,
    };
    let head = octets::form_len(sequence.0 + k as u64) + HEAD;
    p.packets = k + 1;
    p.bytes += head + p.small_messages_bytes;
    p.first = i;
    p.small_messages = 0;
    p.small_messages_bytes = 0;
    p
}

// Puts out the piece at item i.
fn put_piece(item: Item, i: usize, packs: &mut [Row], sequence: Sequence, mut p: Packing) -> Packing
    requires i_bound { i < MAX_MESSAGES }
    requires len_bound { item.len ≤ SLICE_SIZE }
    requires packets_in_bounds { p.packets < length packs.old }
    requires packets_bound { sequence.0 + p.packets < 2 * LIMIT }
    requires bytes_bound { p.bytes < LIMIT }
    ensures { (result ≡ pieced sequence.0 (item_of item) p) × (packs.new ≡ set packs.old p.packets (piece_row item.num i)) }
{
    let k = p.packets;
    packs[k] = Row {
        num: item.num,
        first: i,
        end: i + 1,
        count: 1,
    };
    let slice = item.slice(Sequence(sequence.0 + k as u64), 0);
    p.packets = k + 1;
    p.bytes += packet_slice::slice_len(slice);
    p
}

// Packs item i, those before it being packed. If the sum would pass SLICE_SIZE the group so far is
// put out, even if it holds no message; a piece is put out at once.
fn pack_item(
    items: &[Item],
    i: usize,
    ids: bool,
    packs: &mut [Row],
    sequence: Sequence,
    mut p: Packing,
) -> Packing
    requires i_in_bounds { i < length items.now }
    requires i_bound { (item_at items.now i).len ≤ SLICE_SIZE }
    requires i_in_bounds_2 { i < length packs.old }
    requires i_bound_2 { i < MAX_MESSAGES }
    requires sequence_bound { sequence.0 < LIMIT }
    requires packed_to { PackedTo ids sequence.0 items.now i p packs.old }
    ensures { PackedTo ids sequence.0 items.now (i + 1) result packs.new }
{
    let item = items[i];
    if item.num != 0 {
        return put_piece(item, i, packs, sequence, p);
    }
    let size = serialized_size(ids, item);
    let bytes = p.small_messages_bytes;
    if SLICE_SIZE < bytes + size {
        let mut q = put_group(packs, i, sequence, p);
        q.small_messages = 1;
        q.small_messages_bytes = size;
        return q;
    }
    p.small_messages += 1;
    p.small_messages_bytes = bytes + size;
    p
}

// Packs the items of a round, the first packet with this sequence. The last group ends the round, if
// it holds a message.
fn pack(items: &[Item], ids: bool, packs: &mut [Row], sequence: Sequence) -> Packed
    requires few { length items.now ≤ MAX_MESSAGES }
    requires all { All (λ i. i.len ≤ SLICE_SIZE) (items_of items.now) }
    requires in_bounds { length items.now < length packs.old }
    requires sequence_bound { sequence.0 < LIMIT }
    ensures { Packs ids sequence.0 items.now packs.new result }
{
    let mut p = Packing {
        packets: 0,
        bytes: 0,
        first: 0,
        small_messages: 0,
        small_messages_bytes: 0,
    };
    let n = items.len();
    for i in 0..n {
        p = pack_item(items, i, ids, packs, sequence, p);
    }
    if p.small_messages != 0 {
        p = put_group(packs, n, sequence, p);
    }
    Packed {
        packets: p.packets,
        bytes: p.bytes,
    }
}

// Judges a packed round: the numbers that it would need, then the lent bytes and the lent table.
fn judge(packed: Packed, sequence: Sequence, room: usize, entries: usize) -> Result<(), Refusal>
    requires { packed.packets ≤ LIMIT }
    ensures { verdict_of result ≡ round_number sequence.0 packed room entries }
{
    let packets = packed.packets;
    if LIMIT - (packets as u64) < sequence.0 {
        return Err(Refusal::BadNumber);
    }
    if room < packed.bytes || entries / ENTRY < packets {
        return Err(Refusal::NoRoom);
    }
    Ok(())
}

// Writes the message of an item, if it is small, and answers the place after it.
fn write_item(out: &mut [u8], at: usize, lent: &Lent, item: Item) -> usize
    requires all { All (Sendable lent.now.small.now) (smalls (item_of item ∷ [])) }
    requires in_bounds { at + length (items_bytes lent.now.ids lent.now.small.now (item_of item ∷ [])) ≤ length out.old }
    ensures { (result ≡ at + length (items_bytes lent.now.ids lent.now.small.now (item_of item ∷ [])))
        × (out.new ≡ splice at (items_bytes lent.now.ids lent.now.small.now (item_of item ∷ [])) out.old) }
{
    if item.num != 0 {
        return at;
    }
    let bytes = &lent.small[item.place..item.place + item.len];
    packet_small::write_message(out, at, lent.ids, item.id, bytes)
}

// Writes the small messages among the items from first to end, and answers the place after them.
fn write_group(
    out: &mut [u8],
    from: usize,
    lent: &Lent,
    items: &[Item],
    first: usize,
    end: usize,
) -> usize
    requires end_in_bounds { end ≤ length items.now }
    requires all { All (Sendable lent.now.small.now) (smalls (items_in items.now first (end - first))) }
    requires first_in_bounds { from + length (items_bytes lent.now.ids lent.now.small.now (items_in items.now first (end - first))) ≤ length out.old }
    ensures { (result ≡ from + length (items_bytes lent.now.ids lent.now.small.now (items_in items.now first (end - first))))
        × (out.new ≡ splice from (items_bytes lent.now.ids lent.now.small.now (items_in items.now first (end - first))) out.old) }
{
    let mut at = from;
    for i in first..end {
        at = write_item(out, at, lent, items[i]);
    }
    at
}

// Writes the packet of a row, and answers the place after it.
fn write_packet(
    out: &mut [u8],
    at: usize,
    lent: &Lent,
    items: &[Item],
    row: Row,
    sequence: Sequence,
) -> usize
    requires sound { Sound items.now row }
    requires pack_goes { PackGoes (lent_of lent.now) (pack_of items.now row) }
    requires sequence_bound { sequence.0 < LIMIT }
    requires in_bounds { at + length (pack_bytes (lent_of lent.now) sequence.0 (pack_of items.now row)) ≤ length out.old }
    ensures { (result ≡ at + length (pack_bytes (lent_of lent.now) sequence.0 (pack_of items.now row)))
        × (out.new ≡ splice at (pack_bytes (lent_of lent.now) sequence.0 (pack_of items.now row)) out.old) }
{
    if row.num != 0 {
        let slice = items[row.first].slice(sequence, lent.channel_id);
        return packet_slice::write_slice(out, at, lent.ids, slice, lent.lanes);
    }
    let packet = Small {
        sequence,
        channel_id: lent.channel_id,
        count: row.count,
    };
    let a = packet_small::write_head(out, at, lent.ids, packet);
    write_group(out, a, lent, items, row.first, row.end)
}

// Writes the packets end to end at the front of the lent bytes, and start and length of each to the
// lent table. All was judged before.
fn encode(
    out: &mut [u8],
    table: &mut [u64],
    lent: &Lent,
    items: &[Item],
    packs: &[Row],
    sequence: Sequence,
)
    requires { Ready (lent_of lent.now) sequence.0 items.now packs.now (length out.old) (length table.old) }
    ensures { (out.new ≡ out_after (lent_of lent.now) sequence.0 (packs_of items.now packs.now) out.old)
        × (table.new ≡ table_after (lent_of lent.now) sequence.0 (packs_of items.now packs.now) table.old) }
{
    let mut at = 0;
    for i in 0..packs.len() {
        let seq = Sequence(sequence.0 + i as u64);
        let end = write_packet(out, at, lent, items, packs[i], seq);
        // the lent table is plain words, which the C interface hands over: start and length
        table[ENTRY * i] = at as u64;
        table[ENTRY * i + 1] = (end - at) as u64;
        at = end;
    }
}

// Adds up the payload bytes of the items.
fn payload_bytes(items: &[Item]) -> u64
    requires few { length items.now ≤ ITEMS }
    requires all { All (λ i. i.len ≤ SLICE_SIZE) (items_of items.now) }
    ensures { result ≡ total (λ i. i.len) (items_of items.now) }
{
    let mut sum = 0;
    for item in items {
        sum += item.len as u64;
    }
    sum
}

// The second half of a round: packs the items that were chosen, judges the packets, and only then
// writes them.
pub fn send(
    lent: &Lent,
    items: &[Item],
    sequence: Sequence,
    allowed: u64,
    out: &mut [u8],
    table: &mut [u64],
) -> Result<Written, Refusal>
    requires few { length items.now ≤ ITEMS }
    requires all { All (Chosen (lent_of lent.now)) (items_of items.now) }
    requires sequence_bound { sequence.0 < LIMIT }
    ensures { Gives (lent_of lent.now) sequence.0 allowed (pack lent.now.ids (items_of items.now))
        (round_refusal (lent_of lent.now) sequence.0 (pack lent.now.ids (items_of items.now)) (length out.old) (length table.old))
        out.old table.old out.new table.new result }
{
    let mut packs = [Row::blank(); ITEMS + 1];
    let packed = pack(items, lent.ids, &mut packs, sequence);
    judge(packed, sequence, out.len(), table.len())?;
    let packets = packed.packets;
    encode(out, table, lent, items, &packs[..packets], sequence);
    Ok(Written {
        packets,
        bytes: packed.bytes,
        next_sequence: Sequence(sequence.0 + packets as u64),
        budget: Budget {
            allowed,
            spent: payload_bytes(items),
        },
    })
}
