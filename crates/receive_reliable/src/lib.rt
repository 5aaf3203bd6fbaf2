#![tactic(auto)]
// The receiving end of a reliable channel, in ordered mode. Small messages are held in cells of one
// lent store, sliced ones are put together in lanes of the other; messages come out by rising id.
ghost use Rattle.std.specs.Prelude.{◌≡◌, ◌≤◌, length, Ok, Some};
ghost use Rattle.words.specs.Lists.{lowest_free_of};
ghost use Rattle.channel.specs.Settings.{Good};
ghost use Rattle.receive_reliable.specs.Receive.{new_of, MadeGives, arrival_of, MessageGives, message_spot, fresh, SliceGives, with_lane_of, look_at, look_of, part_at, TakeGives};
ghost use Rattle.receive_reliable.specs.Steps.{shown_at, Fits, held_in, entry_of, message_to, lane_for_of, whole_of, open_of, slice_to, fresh_lane, lane_spot};

use channel::{Opened, Settings, Store};
use slice_constructor::SliceConstructor;
use std::marker::Model;
use words::{After, LANES, LIMIT, MessageId, Refusal, SLICE_SIZE, SLOTS, SliceIndex};

// Entries of free cells and lanes are blank. Columns, and no array of rows: a search reads the ids
// and what is held alone. Arrays of `Option<Cell>` and `Option<Lane>` were tried: an arrival took 46
// percent more instructions, and a take 67.
#[derive(Clone, Copy)]
pub struct ReceiveChannelReliable {
    settings: Settings,
    oldest_pending_message_id: u64,
    memory_usage_bytes: usize,
    // the small messages that are held
    cells: [bool; SLOTS],
    cell_ids: [u64; SLOTS],
    cell_lens: [u16; SLOTS],
    // the sliced messages that are open or whole; a whole one's length, an open one's charge
    lanes: [bool; LANES],
    whole: [bool; LANES],
    lane_ids: [u64; LANES],
    lane_lens: [usize; LANES],
    constructors: [SliceConstructor; LANES],
}

// A contract sees its fields, of which `Valid` is always true.
impl Model for ReceiveChannelReliable {
    ghost use Rattle.receive_reliable.specs.State.{State};

    ghost Value = { State };

    ghost use Rattle.receive_reliable.specs.Receive.{Valid};
    ghost use Rattle.receive_reliable.specs.Fields.{state_of, fields_of};

    ghost view = { state_of };

    ghost invariant = { λ a. Valid (state_of a) };

    ghost inverse = { fields_of };
}

// Whether it was set up, and the receiver.
pub type Made = After<Result<(), Refusal>, ReceiveChannelReliable>;

// What came of a message or a piece: it was taken, or it was old or held already.
#[derive(Clone, Copy, Debug, PartialEq, Eq)]
pub enum Arrival {
    Taken,
    Ignored,
}

// What came of it or why it was refused, and the receiver.
pub type Arrived = After<Result<Arrival, Refusal>, ReceiveChannelReliable>;

// The message that comes out next: its id, the store that holds it, its place there and its length.
#[derive(Clone, Copy, Debug, PartialEq, Eq)]
pub struct Message {
    pub id: MessageId,
    pub store: Store,
    pub place: usize,
    pub len: usize,
}

// The message that was handed out, if one was waiting, and the receiver.
pub type Received = After<Option<Message>, ReceiveChannelReliable>;

// Where a message is: whole in a cell or lane of a store, or open in a lane.
#[derive(Clone, Copy)]
enum Held {
    At(Store, usize),
    Open(Opened),
}

impl ReceiveChannelReliable {
    // Sets up a receiver that holds nothing. Where the settings are refused it has the least ones.
    pub fn new(settings: Settings) -> Made
        ensures { MadeGives settings result }
    {
        let settled = settings.settle();
        After {
            answer: settled.answer,
            state: ReceiveChannelReliable::empty(settled.settings),
        }
    }

    // Takes a small message: its bytes go to the front of the lowest free cell.
    pub fn process_message(
        mut self,
        message_id: MessageId,
        message: &[u8],
        small: &mut [u8],
        lanes: &[u8],
    ) -> Arrived
        ensures { MessageGives self message_id.0 message.now small.old lanes.now small.new result }
    {
        let id = message_id.0;
        let n = message.len();
        let free = words::lowest_free(&self.cells, self.settings.slots);
        let answer = self.message_answer(free, id, n, small.len(), lanes.len());
        let Ok(Arrival::Taken) = answer else {
            return After {
                answer,
                state: self,
            };
        };
        words::write_bytes(small, free * SLICE_SIZE, message);
        self.memory_usage_bytes += n;
        self.cells[free] = true;
        self.cell_ids[free] = id;
        self.cell_lens[free] = n as u16;
        After {
            answer: Ok(Arrival::Taken),
            state: self,
        }
    }

    // Takes a piece of a sliced message: it goes to its message's lane, which the first one opens.
    pub fn process_slice(
        mut self,
        message_id: MessageId,
        slice_index: SliceIndex,
        num_slices: u64,
        payload: &[u8],
        small: &[u8],
        lanes: &mut [u8],
    ) -> Arrived
        ensures { SliceGives self message_id.0 num_slices slice_index.0 payload.now small.now lanes.old lanes.new result }
    {
        let id = message_id.0;
        let held = self.locate(id);
        let free = words::lowest_free(&self.lanes, self.settings.lanes);
        let answer = self.slice_answer(held, free, id, num_slices, small.len(), lanes.len());
        let Ok(Arrival::Taken) = answer else {
            return After {
                answer,
                state: self,
            };
        };
        let place = channel::lane_for(open_lane(held), free);
        let l = place.lane;
        let stored = self.constructors[l];
        let constructor = stored.start(place.fresh, message_id, num_slices as usize);
        let size = self.settings.pieces * SLICE_SIZE;
        let start = l * size;
        let end = start + size;
        let collected = constructor.process_slice(slice_index, payload, &mut lanes[start..end]);
        if let Err(e) = collected.answer {
            return After {
                answer: Err(e),
                state: self,
            };
        }
        self.keep(l, id, collected.state);
        After {
            answer: Ok(Arrival::Taken),
            state: self,
        }
    }

    // The message that a take would hand out now.
    pub fn look(self, small: &[u8], lanes: &[u8]) -> Result<Option<Message>, Refusal>
        ensures { look_of result ≡ look_at self (length small.now) (length lanes.now) }
    {
        let settings = self.settings;
        if !settings.stores_hold(small.len(), lanes.len()) {
            return Err(Refusal::BadStore);
        }
        let Some((store, i)) = self.waiting() else {
            return Ok(None);
        };
        Ok(Some(self.shown(store, i)))
    }

    // Its bytes, as a part of whichever store holds it; an empty part where nothing is waiting.
    pub fn message<'a>(self, small: &'a [u8], lanes: &'a [u8]) -> &'a [u8]
        ensures { result.now ≡ part_at (look_at self (length small.now) (length lanes.now)) small.now lanes.now }
    {
        // what is shown lies within its store by `Valid`, which the first use of a field brings
        let _ = &self.settings;
        let Ok(Some(m)) = self.look(small, lanes) else {
            return &small[..0];
        };
        match m.store {
            Store::Small => channel::part(small, m.place, m.len),
            Store::Lanes => channel::part(lanes, m.place, m.len),
        }
    }

    // Hands the waiting message out: its cell or lane is free again, and the next id is awaited.
    pub fn receive_message(mut self) -> Received
        ensures { TakeGives self result }
    {
        let Some((store, i)) = self.waiting() else {
            return After {
                answer: None,
                state: self,
            };
        };
        let message = self.shown(store, i);
        self.oldest_pending_message_id += 1;
        self.memory_usage_bytes -= message.len;
        match store {
            Store::Small => {
                self.cells[i] = false;
                self.cell_ids[i] = 0;
                self.cell_lens[i] = 0;
            }
            Store::Lanes => {
                self.lanes[i] = false;
                self.whole[i] = false;
                self.lane_ids[i] = 0;
                self.lane_lens[i] = 0;
            }
        }
        After {
            answer: Some(message),
            state: self,
        }
    }

    // How many bytes the held messages and the open lanes take.
    pub fn memory_usage_bytes(self) -> usize
        ensures { result ≡ self.memory_usage_bytes }
    {
        self.memory_usage_bytes
    }

    // A receiver that holds nothing and awaits id 0.
    fn empty(settings: Settings) -> ReceiveChannelReliable
        requires { Good settings }
        ensures { result ≡ new_of settings }
    {
        let constructor = SliceConstructor::blank();
        ReceiveChannelReliable {
            settings,
            oldest_pending_message_id: 0,
            memory_usage_bytes: 0,
            cells: [false; SLOTS],
            cell_ids: [0; SLOTS],
            cell_lens: [0; SLOTS],
            lanes: [false; LANES],
            whole: [false; LANES],
            lane_ids: [0; LANES],
            lane_lens: [0; LANES],
            constructors: [constructor; LANES],
        }
    }

    // Where the message with an id is, if it is here.
    fn locate(&self, id: u64) -> Option<Held>
        ensures { result ≡ held_in self.now id }
    {
        let cell = channel::find(&self.cells, &self.cell_ids, id);
        if cell < SLOTS {
            return Some(Held::At(Store::Small, cell));
        }
        let lane = channel::find(&self.lanes, &self.lane_ids, id);
        if LANES <= lane {
            return None;
        }
        if self.whole[lane] {
            return Some(Held::At(Store::Lanes, lane));
        }
        let charge = self.lane_lens[lane];
        Some(Held::Open(Opened { lane, charge }))
    }

    // Where the message lies that comes out next, if it is whole.
    fn waiting(&self) -> Option<(Store, usize)>
        ensures { result ≡ whole_of (held_in self.now self.now.oldest_pending_message_id) }
    {
        whole(self.locate(self.oldest_pending_message_id))
    }

    // That message, by the cell or lane that holds it.
    fn shown(&self, store: Store, i: usize) -> Message
        requires { whole_of (held_in self.now self.now.oldest_pending_message_id) ≡ Some (store, i) }
        ensures { look_of (Ok (Some result)) ≡ shown_at self.now store i }
    {
        let id = MessageId(self.oldest_pending_message_id);
        match store {
            Store::Small => Message {
                id,
                store,
                place: i * SLICE_SIZE,
                len: self.cell_lens[i] as usize,
            },
            Store::Lanes => Message {
                id,
                store,
                place: i * (self.settings.pieces * SLICE_SIZE),
                len: self.lane_lens[i],
            },
        }
    }

    // Keeps a message in lane l, by its constructor: open, or whole.
    fn keep(&mut self, l: usize, id: u64, constructor: SliceConstructor)
        requires { Fits self.old l id constructor }
        ensures { self.new ≡ with_lane_of self.old l id constructor }
    {
        let kept = constructor.keep();
        self.memory_usage_bytes = self.memory_usage_bytes - self.lane_lens[l] + kept.len;
        self.lanes[l] = true;
        self.whole[l] = kept.whole;
        self.lane_ids[l] = id;
        self.lane_lens[l] = kept.len;
        self.constructors[l] = kept.constructor;
    }

    // Judges what arrives by the stores and its id: one that is neither old nor held may be taken.
    fn entry(
        &self,
        held: Option<Held>,
        id: u64,
        small: usize,
        lane: usize,
    ) -> Result<Arrival, Refusal>
        requires { held ≡ held_in self.now id }
        ensures { arrival_of result ≡ entry_of self.now id small lane }
    {
        let settings = self.settings;
        if !settings.stores_hold(small, lane) {
            return Err(Refusal::BadStore);
        }
        if LIMIT <= id {
            return Err(Refusal::BadNumber);
        }
        if id < self.oldest_pending_message_id {
            return Ok(Arrival::Ignored);
        }
        if let Some(_) = whole(held) {
            return Ok(Arrival::Ignored);
        }
        Ok(Arrival::Taken)
    }

    // What a small message of n bytes is told, where `free` is the lowest free cell.
    fn message_answer(
        &self,
        free: usize,
        id: u64,
        n: usize,
        small: usize,
        lane: usize,
    ) -> Result<Arrival, Refusal>
        requires { free ≡ lowest_free_of self.now.cells self.now.settings.slots }
        ensures { message_to free result ≡ message_spot self.now id n small lane }
    {
        let held = self.locate(id);
        if let Arrival::Ignored = self.entry(held, id, small, lane)? {
            return Ok(Arrival::Ignored);
        }
        if SLICE_SIZE < n {
            return Err(Refusal::TooLong);
        }
        if let Some(_) = open_lane(held) {
            return Err(Refusal::WrongKind);
        }
        if self.settings.max_memory_usage_bytes < self.memory_usage_bytes + n {
            return Err(Refusal::ReliableChannelMaxMemoryReached);
        }
        if self.settings.slots <= free {
            return Err(Refusal::TableFull);
        }
        Ok(Arrival::Taken)
    }

    // What a piece of a message with so many pieces is told, where `free` is the lowest free lane.
    fn slice_answer(
        &self,
        held: Option<Held>,
        free: usize,
        id: u64,
        num_slices: u64,
        small: usize,
        lane: usize,
    ) -> Result<Arrival, Refusal>
        requires { (held ≡ held_in self.now id) × (free ≡ lowest_free_of self.now.lanes self.now.settings.lanes) }
        ensures { slice_to (lane_for_of held free) result ≡ lane_spot self.now id num_slices small lane }
    {
        if let Arrival::Ignored = self.entry(held, id, small, lane)? {
            return Ok(Arrival::Ignored);
        }
        if num_slices == 0 {
            return Err(Refusal::InvalidSliceMessage);
        }
        if (self.settings.pieces as u64) < num_slices {
            return Err(Refusal::TooLong);
        }
        let num = num_slices as usize;
        if let Some(o) = open_lane(held) {
            // an open lane's charge tells how many pieces its message has
            if o.charge != SLICE_SIZE * num {
                return Err(Refusal::InvalidSliceMessage);
            }
            return Ok(Arrival::Taken);
        }
        self.fresh(free, num)
    }

    // What a message with so many pieces is told that would open the lane `free`.
    fn fresh(&self, free: usize, num_slices: usize) -> Result<Arrival, Refusal>
        requires { (free ≡ lowest_free_of self.now.lanes self.now.settings.lanes) × (num_slices ≤ self.now.settings.pieces) }
        ensures { slice_to (fresh free) result ≡ fresh_lane self.now num_slices }
    {
        if self.settings.max_memory_usage_bytes
            < self.memory_usage_bytes + SLICE_SIZE * num_slices
        {
            return Err(Refusal::ReliableChannelMaxMemoryReached);
        }
        if self.settings.lanes <= free {
            return Err(Refusal::TableFull);
        }
        Ok(Arrival::Taken)
    }
}

// The cell or lane of a message that is whole, if it is.
fn whole(held: Option<Held>) -> Option<(Store, usize)>
    ensures { result ≡ whole_of held }
{
    match held {
        Some(Held::At(store, i)) => Some((store, i)),
        Some(Held::Open(_)) => None,
        None => None,
    }
}

// The lane of a message that is open, if it is.
fn open_lane(held: Option<Held>) -> Option<Opened>
    ensures { result ≡ open_of held }
{
    match held {
        Some(Held::Open(o)) => Some(o),
        Some(Held::At(_, _)) => None,
        None => None,
    }
}
