#![tactic(auto)]
// The sending end of an unreliable channel. Messages wait in a queue, and a round empties it: what the
// allowance covers goes once, the rest is dropped for good. Its calls have the form of the reliable
// sender's, and are no twins: the states differ, and with them what the promises cite (`QueueGives`).
//
// A call takes a state and hands one back. What it does to the state it does in place, in a private
// method on `&mut self`, so that a refusal is a `?` and no further copy of the state.
ghost use Rattle.std.specs.Prelude.{◌≡◌, [], ◌∷◌, ◌++◌, ◌+◌, ◌*◌, ◌≤◌, ◌<◌, length};
ghost use Rattle.words.specs.Sizes.{SLICE_SIZE, PIECES, LIMIT};
ghost use Rattle.words.specs.Pieces.{pieces_of};
ghost use Rattle.words.specs.Lists.{reached};
ghost use Rattle.channel.specs.Settings.{Good};
ghost use Rattle.pack.specs.Pack.{items_in};
ghost use Rattle.pack.specs.Round.{ITEMS};
ghost use Rattle.send_unreliable.specs.Sender.{ROWS, empty_of, available, can_send_of, MadeGives, spot_of, QueueGives};
ghost use Rattle.send_unreliable.specs.Round.{pieces_from, go, starting, RoundGives};
ghost use Rattle.send_unreliable.specs.Steps.{place_of, chosen_at, Room};

use channel::{ROWS, Settings};
use pack::{ITEMS, Item, Lent, Written};
use std::marker::Model;
use words::{After, LIMIT, MessageId, Refusal, SLICE_SIZE, Sequence, SliceIndex};

// The k-th small message that waits lies in cell k and the l-th sliced one in lane l: a round frees all
// at once, so these are always the lowest free ones. Entries past `count` are blank: a count beside a
// table, since all memory is fixed.
#[derive(Clone, Copy)]
pub struct SendChannelUnreliable {
    channel_id: u8,
    settings: Settings,
    sliced_message_id: u64,
    memory_usage_bytes: usize,
    count: usize,
    small: usize,
    sliced: usize,
    lens: [usize; ROWS],
}

// A contract sees its fields, of which `Valid` is always true.
impl Model for SendChannelUnreliable {
    ghost use Rattle.send_unreliable.specs.State.{State};

    ghost Value = { State };

    ghost use Rattle.send_unreliable.specs.Sender.{Valid};
    ghost use Rattle.send_unreliable.specs.Fields.{state_of, fields_of};

    ghost view = { state_of };

    ghost invariant = { λ a. Valid (state_of a) };

    ghost inverse = { fields_of };
}

pub type Made = After<Result<(), Refusal>, SendChannelUnreliable>;

// What came of a message: it waits, or it was dropped for want of memory.
#[derive(Clone, Copy, Debug, PartialEq, Eq)]
pub enum Queue {
    Taken,
    Dropped,
}

pub type Queued = After<Result<Queue, Refusal>, SendChannelUnreliable>;

pub type Round = After<Result<Written, Refusal>, SendChannelUnreliable>;

// Where a message goes: the lowest free cell or lane.
#[derive(Clone, Copy)]
enum Place {
    Cell,
    Lane,
}

// What choosing carries from message to message: what is left of the allowance; how many small and
// sliced messages were passed, which tells where the next one lies; the id of the next sliced message
// that goes; and how many items were chosen.
#[derive(Clone, Copy)]
struct Selection {
    left: u64,
    small: usize,
    sliced: usize,
    id: u64,
    items: usize,
}

impl SendChannelUnreliable {
    // Sets up a sender with an empty queue. Where the settings are refused it has the least ones.
    pub fn new(channel_id: u8, settings: Settings) -> Made
        ensures { MadeGives channel_id settings result }
    {
        let settled = settings.settle();
        match settled.answer {
            Ok(()) => After {
                answer: Ok(()),
                state: SendChannelUnreliable::empty(channel_id, settled.settings),
            },
            Err(e) => After {
                answer: Err(e),
                state: SendChannelUnreliable::empty(0, settled.settings),
            },
        }
    }

    // Whether a message of this size would not be dropped for want of memory.
    pub fn can_send_message(self, size_bytes: usize) -> bool
        ensures { result ≡ can_send_of self size_bytes }
    {
        size_bytes <= self.settings.max_memory_usage_bytes - self.memory_usage_bytes
    }

    // How many bytes more may wait.
    pub fn available_memory(self) -> usize
        ensures { result ≡ available self }
    {
        self.settings.max_memory_usage_bytes - self.memory_usage_bytes
    }

    // How many bytes the waiting messages have.
    pub fn memory_usage_bytes(self) -> usize
        ensures { result ≡ self.memory_usage_bytes }
    {
        self.memory_usage_bytes
    }

    // Queues a message: its bytes go to the front of the lowest free cell, or lane if it has pieces.
    pub fn send_message(mut self, message: &[u8], small: &mut [u8], lanes: &mut [u8]) -> Queued
        ensures { QueueGives self message.now small.old lanes.old small.new lanes.new result }
    {
        let answer = self.queue(message, small, lanes);
        After {
            answer,
            state: self,
        }
    }

    // A round: chooses what goes, packs it and writes the packets; the queue is empty afterwards.
    pub fn get_packets_to_send(
        mut self,
        sequence: Sequence,
        allowance: u64,
        small: &[u8],
        lanes: &[u8],
        out: &mut [u8],
        table: &mut [u64],
    ) -> Round
        ensures { RoundGives self (record { seq = sequence.0; allowance = allowance; small = small.now; lanes = lanes.now })
            out.old table.old out.new table.new result }
    {
        let answer = self.empty_queue(sequence, allowance, small, lanes, out, table);
        After {
            answer,
            state: self,
        }
    }

    // A sender with an empty queue.
    fn empty(channel_id: u8, settings: Settings) -> SendChannelUnreliable
        requires { Good settings }
        ensures { result ≡ empty_of channel_id settings 0 }
    {
        SendChannelUnreliable {
            channel_id,
            settings,
            sliced_message_id: 0,
            memory_usage_bytes: 0,
            count: 0,
            small: 0,
            sliced: 0,
            lens: [0; ROWS],
        }
    }

    // Where a message of n bytes goes, with stores of these lengths; none where it is dropped.
    fn find_place(&self, n: usize, small: usize, lanes: usize) -> Result<Option<Place>, Refusal>
        ensures { place_of result ≡ spot_of self.now n small lanes }
    {
        let settings = self.settings;
        if !settings.stores_hold(small, lanes) {
            return Err(Refusal::BadStore);
        }
        if settings.pieces * SLICE_SIZE < n {
            return Err(Refusal::TooLong);
        }
        if settings.max_memory_usage_bytes < self.memory_usage_bytes + n {
            return Ok(None);
        }
        if n <= SLICE_SIZE {
            if self.small < settings.slots {
                return Ok(Some(Place::Cell));
            }
            return Err(Refusal::TableFull);
        }
        if self.sliced < settings.lanes {
            return Ok(Some(Place::Lane));
        }
        Err(Refusal::TableFull)
    }

    // `send_message`, in place.
    fn queue(
        &mut self,
        message: &[u8],
        small: &mut [u8],
        lanes: &mut [u8],
    ) -> Result<Queue, Refusal>
        ensures { QueueGives self.old message.now small.old lanes.old small.new lanes.new (record { answer = result; state = self.new }) }
    {
        let n = message.len();
        let k = self.small;
        let l = self.sliced;
        let found = self.find_place(n, small.len(), lanes.len())?;
        let Some(place) = found else {
            return Ok(Queue::Dropped);
        };
        match place {
            Place::Cell => {
                words::write_bytes(small, k * SLICE_SIZE, message);
                self.small = k + 1;
            }
            Place::Lane => {
                let size = self.settings.pieces * SLICE_SIZE;
                words::write_bytes(lanes, l * size, message);
                self.sliced = l + 1;
            }
        }
        self.lens[self.count] = n;
        self.count += 1;
        self.memory_usage_bytes += n;
        Ok(Queue::Taken)
    }

    // `get_packets_to_send`, in place.
    fn empty_queue(
        &mut self,
        sequence: Sequence,
        allowance: u64,
        small: &[u8],
        lanes: &[u8],
        out: &mut [u8],
        table: &mut [u64],
    ) -> Result<Written, Refusal>
        ensures { RoundGives self.old (record { seq = sequence.0; allowance = allowance; small = small.now; lanes = lanes.now })
            out.old table.old out.new table.new (record { answer = result; state = self.new }) }
    {
        let settings = self.settings;
        if !settings.stores_hold(small.len(), lanes.len()) {
            return Err(Refusal::BadStore);
        }
        if LIMIT <= sequence.0 {
            return Err(Refusal::BadNumber);
        }
        let mut items = [Item::blank(); ITEMS];
        let lens = &self.lens[..self.count];
        let chosen = select(
            lens,
            settings,
            allowance,
            self.sliced_message_id,
            &mut items,
        );
        if LIMIT < chosen.id {
            return Err(Refusal::BadNumber);
        }
        let lent = Lent {
            ids: false,
            channel_id: self.channel_id,
            small,
            lanes,
        };
        let written = pack::send(
            &lent,
            &items[..chosen.items],
            sequence,
            allowance,
            out,
            table,
        )?;
        self.sliced_message_id = chosen.id;
        self.memory_usage_bytes = 0;
        self.count = 0;
        self.small = 0;
        self.sliced = 0;
        self.lens = [0; ROWS];
        Ok(written)
    }
}

// Chooses what the allowance covers of the messages of these lengths, in the queue's order.
fn select(
    lens: &[usize],
    settings: Settings,
    allowance: u64,
    id: u64,
    items: &mut [Item],
) -> Selection
    requires good { Good settings }
    requires in_bounds { ITEMS ≤ length items.old }
    requires room { Room settings (starting allowance id) lens.now }
    ensures { chosen_at result items.new ≡ reached (go settings) (starting allowance id) lens.now }
{
    let mut chosen = Selection {
        left: allowance,
        small: 0,
        sliced: 0,
        id,
        items: 0,
    };
    for i in 0..lens.len() {
        chosen = choose(items, settings, lens[i], chosen);
    }
    chosen
}

// Chooses a message of n bytes, if what is left of the allowance covers it. One that is passed over
// still lies in its cell or lane, so it is counted all the same; it uses no id.
fn choose(items: &mut [Item], settings: Settings, n: usize, mut chosen: Selection) -> Selection
    requires good { Good settings }
    requires in_bounds { ITEMS ≤ length items.old }
    requires room { Room settings (chosen_at chosen items.old) (n ∷ []) }
    ensures { chosen_at result items.new ≡ go settings (chosen_at chosen items.old) n }
{
    let left = chosen.left;
    let k = chosen.items;
    if n <= SLICE_SIZE {
        let cell = chosen.small;
        chosen.small += 1;
        if left < n as u64 {
            return chosen;
        }
        items[k] = Item {
            num: 0,
            id: MessageId(0),
            index: SliceIndex(0),
            place: cell * SLICE_SIZE,
            len: n,
        };
        chosen.left = left - n as u64;
        chosen.items = k + 1;
        return chosen;
    }
    let lane = chosen.sliced;
    chosen.sliced += 1;
    if left < n as u64 {
        return chosen;
    }
    let id = chosen.id;
    chosen.items = put_slices(items, k, id, n, lane * (settings.pieces * SLICE_SIZE));
    chosen.left = left - n as u64;
    chosen.id = id + 1;
    chosen
}

// Puts the pieces of a message that lies at a place of the lanes behind the first items, and answers
// how many items there are then.
fn put_slices(items: &mut [Item], first: usize, id: u64, len: usize, place: usize) -> usize
    requires len_bound { len ≤ PIECES * SLICE_SIZE }
    requires place_bound { place < LIMIT }
    requires len_in_bounds { first + pieces_of len ≤ length items.old }
    ensures { (result ≡ first + pieces_of len) × (items_in items.new 0 result ≡ items_in items.old 0 first ++ pieces_from id len place 0 (pieces_of len)) }
{
    let num = pack::num_slices(len);
    for i in 0..num {
        items[first + i] = Item {
            num,
            id: MessageId(id),
            index: SliceIndex(i as u64),
            place: place + i * SLICE_SIZE,
            len: pack::slice_len(len, i),
        };
    }
    first + num
}
