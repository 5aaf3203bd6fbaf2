#![tactic(auto)]
// The receiving end of an unreliable channel. Small messages are held in cells of one lent store,
// sliced ones are put together in lanes of the other; messages come out in the order in which they
// became whole.
//
// Its calls have the form of the reliable receiver's, and are no twins: the states differ, and with them the
// definitions that the promises cite (`look_at`, `part_at`, `message_spot`).
ghost use Rattle.std.specs.Prelude.{◌≡◌, [], ◌∷◌, ◌++◌, ℕ, ◌≤◌, ◌<◌, length, get_or, true, false, drop, Ok, Some, None};
ghost use Rattle.words.specs.Choice.{pick};
ghost use Rattle.words.specs.Sizes.{LANES, LIMIT};
ghost use Rattle.words.specs.Lists.{lowest_free_of};
ghost use Rattle.channel.specs.Settings.{Good};
ghost use Rattle.receive_unreliable.specs.Receive.{ROWS, new_of, next_place, MadeGives, message_spot, MessageGives, fresh, fresh_lane, lane_spot, with_piece, SliceGives, lowest_id_of, lowest_open, goes_on_of, without_open, DiscardGives, shown_at, look_at, look_of, part_at, TakeGives};
ghost use Rattle.receive_unreliable.specs.Steps.{held_of, opened_in, message_to, lane_for_of, slice_to, Fits};

use channel::{Opened, ROWS, Settings, Store};
use slice_constructor::SliceConstructor;
use std::marker::Model;
use words::{After, LANES, LIMIT, MessageId, Refusal, SLICE_SIZE, SLOTS, SliceIndex};

// An open message that got no piece for so long, in nanoseconds, may be discarded.
const DISCARD_AFTER: u64 = 3_000_000_000;

// Entries of free cells and lanes, and those of the queue past `count`, are blank. Columns, and no
// array of rows, as in the reliable receiver, where rows were tried and took half as many instructions
// again. A count beside the queue, since all memory is fixed.
#[derive(Clone, Copy)]
pub struct ReceiveChannelUnreliable {
    settings: Settings,
    memory_usage_bytes: usize,
    // the latest time at which a piece or a discarding was accepted
    latest: u64,
    // the small messages that are held
    cells: [bool; SLOTS],
    cell_lens: [u16; SLOTS],
    // the sliced messages that are open or whole; a whole one's length, an open one's charge
    lanes: [bool; LANES],
    lane_lens: [usize; LANES],
    // those that are open, with the time of the last piece; a whole one's entries here are blank
    opens: [bool; LANES],
    lane_ids: [u64; LANES],
    last_received: [u64; LANES],
    constructors: [SliceConstructor; LANES],
    // the messages that wait, in order of completion: a cell i as i, a lane l as SLOTS + l
    count: usize,
    queue: [u8; ROWS],
}

// A contract sees its fields, of which `Valid` is always true.
impl Model for ReceiveChannelUnreliable {
    ghost use Rattle.receive_unreliable.specs.State.{State};

    ghost Value = { State };

    ghost use Rattle.receive_unreliable.specs.Receive.{Valid};
    ghost use Rattle.receive_unreliable.specs.Fields.{state_of, fields_of};

    ghost view = { state_of };

    ghost invariant = { λ a. Valid (state_of a) };

    ghost inverse = { fields_of };
}

// Whether it was set up, and the receiver.
pub type Made = After<Result<(), Refusal>, ReceiveChannelUnreliable>;

// What came of a message or a piece: it was taken, or dropped for want of memory.
#[derive(Clone, Copy, Debug, PartialEq, Eq)]
pub enum Arrival {
    Taken,
    Dropped,
}

// What came of it or why it was refused, and the receiver.
pub type Arrived = After<Result<Arrival, Refusal>, ReceiveChannelUnreliable>;

// How many open messages were discarded, and the receiver.
pub type Discarded = After<Result<usize, Refusal>, ReceiveChannelUnreliable>;

// The message that comes out next: the store that holds it, its place there and its length.
#[derive(Clone, Copy, Debug, PartialEq, Eq)]
pub struct Message {
    pub store: Store,
    pub place: usize,
    pub len: usize,
}

// The message that was handed out, if one was waiting, and the receiver.
pub type Received = After<Option<Message>, ReceiveChannelUnreliable>;

impl ReceiveChannelUnreliable {
    // Sets up a receiver that holds nothing. Where the settings are refused it has the least ones.
    pub fn new(settings: Settings) -> Made
        ensures { MadeGives settings result }
    {
        let settled = settings.settle();
        After {
            answer: settled.answer,
            state: ReceiveChannelUnreliable::empty(settled.settings),
        }
    }

    // Takes a small message: its bytes go to the front of the lowest free cell, and it waits as the
    // last of the queue.
    pub fn process_message(mut self, message: &[u8], small: &mut [u8], lanes: &[u8]) -> Arrived
        ensures { MessageGives self message.now small.old lanes.now small.new result }
    {
        let n = message.len();
        let free = words::lowest_free(&self.cells, self.settings.slots);
        let answer = self.message_answer(free, n, small.len(), lanes.len());
        let Ok(Arrival::Taken) = answer else {
            return After {
                answer,
                state: self,
            };
        };
        words::write_bytes(small, free * SLICE_SIZE, message);
        let last = self.count;
        self.memory_usage_bytes += n;
        self.cells[free] = true;
        self.cell_lens[free] = n as u16;
        self.queue[last] = free as u8;
        self.count = last + 1;
        After {
            answer: Ok(Arrival::Taken),
            state: self,
        }
    }

    // Takes a piece of a sliced message: it goes to its message's lane, which the first one opens.
    // A message that is whole waits as the last of the queue.
    pub fn process_slice(
        mut self,
        message_id: MessageId,
        slice_index: SliceIndex,
        num_slices: u64,
        payload: &[u8],
        current_time: u64,
        small: &[u8],
        lanes: &mut [u8],
    ) -> Arrived
        ensures { SliceGives self message_id.0 num_slices slice_index.0 payload.now current_time small.now lanes.old lanes.new result }
    {
        let id = message_id.0;
        let opened = self.locate(id);
        let free = words::lowest_free(&self.lanes, self.settings.lanes);
        let answer = self.slice_answer(
            opened,
            free,
            id,
            num_slices,
            current_time,
            small.len(),
            lanes.len(),
        );
        let Ok(Arrival::Taken) = answer else {
            return After {
                answer,
                state: self,
            };
        };
        let place = channel::lane_for(opened, free);
        let l = place.lane;
        let stored = self.constructors[l];
        let constructor = stored.start(place.fresh, message_id, num_slices as usize);
        let size = self.settings.pieces * SLICE_SIZE;
        let start = l * size;
        let end = start + size;
        let collected = constructor.process_slice(slice_index, payload, &mut lanes[start..end]);
        if let Err(e) = collected.answer {
            return After {
                answer: Err(e),
                state: self,
            };
        }
        self.keep(l, collected.state, current_time);
        After {
            answer: Ok(Arrival::Taken),
            state: self,
        }
    }

    // Drops open messages that got no piece for DISCARD_AFTER, from the lowest id up to the first
    // one that is younger.
    pub fn discard_incomplete_old_slices(mut self, current_time: u64) -> Discarded
        ensures { DiscardGives self current_time result }
    {
        if current_time < self.latest {
            return After {
                answer: Err(Refusal::ClockBack),
                state: self,
            };
        }
        self.latest = current_time;
        for dropped in 0..LANES {
            let Some(l) = self.old_lane(current_time) else {
                return After {
                    answer: Ok(dropped),
                    state: self,
                };
            };
            self.discard(l);
        }
        After {
            answer: Ok(LANES),
            state: self,
        }
    }

    // The message that a take would hand out now.
    pub fn look(self, small: &[u8], lanes: &[u8]) -> Result<Option<Message>, Refusal>
        ensures { look_of result ≡ look_at self (length small.now) (length lanes.now) }
    {
        let settings = self.settings;
        if !settings.stores_hold(small.len(), lanes.len()) {
            return Err(Refusal::BadStore);
        }
        let Some((store, i)) = self.next() else {
            return Ok(None);
        };
        Ok(Some(self.shown(store, i)))
    }

    // Its bytes, as a part of whichever store holds it; an empty part where nothing is waiting.
    pub fn message<'a>(self, small: &'a [u8], lanes: &'a [u8]) -> &'a [u8]
        ensures { result.now ≡ part_at (look_at self (length small.now) (length lanes.now)) small.now lanes.now }
    {
        // what is shown lies within its store by `Valid`, which the first use of a field brings
        let _ = &self.settings;
        let Ok(Some(m)) = self.look(small, lanes) else {
            return &small[..0];
        };
        match m.store {
            Store::Small => channel::part(small, m.place, m.len),
            Store::Lanes => channel::part(lanes, m.place, m.len),
        }
    }

    // Hands the first message of the queue out: its cell or lane is free again.
    pub fn receive_message(mut self) -> Received
        ensures { TakeGives self result }
    {
        let Some((store, i)) = self.next() else {
            return After {
                answer: None,
                state: self,
            };
        };
        let message = self.shown(store, i);
        let count = self.count;
        close_up(&mut self.queue, count);
        self.count = count - 1;
        self.memory_usage_bytes -= message.len;
        match store {
            Store::Small => {
                self.cells[i] = false;
                self.cell_lens[i] = 0;
            }
            Store::Lanes => {
                self.lanes[i] = false;
                self.lane_lens[i] = 0;
            }
        }
        After {
            answer: Some(message),
            state: self,
        }
    }

    // How many bytes the waiting messages and the open lanes take.
    pub fn memory_usage_bytes(self) -> usize
        ensures { result ≡ self.memory_usage_bytes }
    {
        self.memory_usage_bytes
    }

    // A receiver that holds nothing.
    fn empty(settings: Settings) -> ReceiveChannelUnreliable
        requires { Good settings }
        ensures { result ≡ new_of settings }
    {
        let constructor = SliceConstructor::blank();
        ReceiveChannelUnreliable {
            settings,
            memory_usage_bytes: 0,
            latest: 0,
            cells: [false; SLOTS],
            cell_lens: [0; SLOTS],
            lanes: [false; LANES],
            lane_lens: [0; LANES],
            opens: [false; LANES],
            lane_ids: [0; LANES],
            last_received: [0; LANES],
            constructors: [constructor; LANES],
            count: 0,
            queue: [0; ROWS],
        }
    }

    // Where the first message of the queue is held.
    fn next(&self) -> Option<(Store, usize)>
        ensures { held_of result ≡ next_place self.now }
    {
        if self.count == 0 {
            return None;
        }
        let first = self.queue[0] as usize;
        if first < SLOTS {
            return Some((Store::Small, first));
        }
        Some((Store::Lanes, first - SLOTS))
    }

    // That message, by the cell or lane that holds it.
    fn shown(&self, store: Store, i: usize) -> Message
        requires { held_of (Some (store, i)) ≡ next_place self.now }
        ensures { look_of (Ok (Some result)) ≡ shown_at self.now (held_of (Some (store, i))) }
    {
        match store {
            Store::Small => Message {
                store,
                place: i * SLICE_SIZE,
                len: self.cell_lens[i] as usize,
            },
            Store::Lanes => Message {
                store,
                place: i * (self.settings.pieces * SLICE_SIZE),
                len: self.lane_lens[i],
            },
        }
    }

    // The lane of the open message with an id, if it is open.
    fn locate(&self, id: u64) -> Option<Opened>
        ensures { result ≡ opened_in self.now id }
    {
        let lane = channel::find(&self.opens, &self.lane_ids, id);
        if LANES <= lane {
            return None;
        }
        let charge = self.lane_lens[lane];
        Some(Opened { lane, charge })
    }

    // The lane of the open message with the lowest id, if that one got no piece for DISCARD_AFTER.
    fn old_lane(&self, current_time: u64) -> Option<usize>
        requires { self.now.latest ≤ current_time }
        ensures { result ≡ pick (goes_on_of self.now current_time) (Some (lowest_open self.now)) None }
    {
        let id = lowest_id(&self.opens, &self.lane_ids);
        let l = channel::find(&self.opens, &self.lane_ids, id);
        if LANES <= l {
            return None;
        }
        if current_time - self.last_received[l] < DISCARD_AFTER {
            return None;
        }
        Some(l)
    }

    // Drops the open message of lane l: the lane is free again.
    fn discard(&mut self, l: usize)
        requires { (l < LANES) × (get_or self.old.opens l false ≡ true) }
        ensures { self.new ≡ without_open self.old l }
    {
        let charge = self.lane_lens[l];
        self.memory_usage_bytes -= charge;
        self.lanes[l] = false;
        self.lane_lens[l] = 0;
        self.opens[l] = false;
        self.lane_ids[l] = 0;
        self.last_received[l] = 0;
        self.constructors[l] = SliceConstructor::blank();
    }

    // What a small message of n bytes is told, where `free` is the lowest free cell.
    fn message_answer(
        &self,
        free: usize,
        n: usize,
        small: usize,
        lane: usize,
    ) -> Result<Arrival, Refusal>
        requires { free ≡ lowest_free_of self.now.cells self.now.settings.slots }
        ensures { message_to free result ≡ message_spot self.now n small lane }
    {
        let settings = self.settings;
        if !settings.stores_hold(small, lane) {
            return Err(Refusal::BadStore);
        }
        if SLICE_SIZE < n {
            return Err(Refusal::TooLong);
        }
        if settings.max_memory_usage_bytes < self.memory_usage_bytes + n {
            return Ok(Arrival::Dropped);
        }
        if settings.slots <= free {
            return Err(Refusal::TableFull);
        }
        Ok(Arrival::Taken)
    }

    // What a piece of a message with so many pieces is told, where `free` is the lowest free lane.
    fn slice_answer(
        &self,
        opened: Option<Opened>,
        free: usize,
        id: u64,
        num_slices: u64,
        current_time: u64,
        small: usize,
        lane: usize,
    ) -> Result<Arrival, Refusal>
        requires { (opened ≡ opened_in self.now id) × (free ≡ lowest_free_of self.now.lanes self.now.settings.lanes) }
        ensures { slice_to (lane_for_of opened free) result ≡ lane_spot self.now id num_slices current_time small lane }
    {
        let settings = self.settings;
        if !settings.stores_hold(small, lane) {
            return Err(Refusal::BadStore);
        }
        if LIMIT <= id {
            return Err(Refusal::BadNumber);
        }
        if current_time < self.latest {
            return Err(Refusal::ClockBack);
        }
        if num_slices == 0 {
            return Err(Refusal::InvalidSliceMessage);
        }
        if (settings.pieces as u64) < num_slices {
            return Err(Refusal::TooLong);
        }
        let num = num_slices as usize;
        if let Some(o) = opened {
            // an open lane's charge tells how many pieces its message has
            if o.charge != SLICE_SIZE * num {
                return Err(Refusal::InvalidSliceMessage);
            }
            return Ok(Arrival::Taken);
        }
        self.fresh(free, num)
    }

    // What a message with so many pieces is told that would open the lane `free`.
    fn fresh(&self, free: usize, num_slices: usize) -> Result<Arrival, Refusal>
        requires { (free ≡ lowest_free_of self.now.lanes self.now.settings.lanes) × (num_slices ≤ self.now.settings.pieces) }
        ensures { slice_to (fresh free) result ≡ fresh_lane self.now num_slices }
    {
        if self.settings.max_memory_usage_bytes
            < self.memory_usage_bytes + SLICE_SIZE * num_slices
        {
            return Ok(Arrival::Dropped);
        }
        if self.settings.lanes <= free {
            return Err(Refusal::TableFull);
        }
        Ok(Arrival::Taken)
    }

    // Keeps a message in lane l after a piece, by its constructor: open, or whole and the last of the
    // queue. A repeat renews the time too.
    fn keep(&mut self, l: usize, constructor: SliceConstructor, current_time: u64)
        requires { Fits self.old l constructor current_time }
        ensures { self.new ≡ with_piece self.old l constructor current_time }
    {
        let kept = constructor.keep();
        self.memory_usage_bytes = self.memory_usage_bytes - self.lane_lens[l] + kept.len;
        self.latest = current_time;
        self.lanes[l] = true;
        self.lane_lens[l] = kept.len;
        self.constructors[l] = kept.constructor;
        if kept.whole {
            let last = self.count;
            self.opens[l] = false;
            self.lane_ids[l] = 0;
            self.last_received[l] = 0;
            self.queue[last] = (SLOTS + l) as u8;
            self.count = last + 1;
        } else {
            self.opens[l] = true;
            self.lane_ids[l] = constructor.message_id().0;
            self.last_received[l] = current_time;
        }
    }
}

// Takes the first entry off a queue of so many: the others move up, and the last one's place is blank.
fn close_up(queue: &mut [u8; ROWS], count: usize)
    requires { (0 < count) × (count ≤ ROWS) × (length queue.old ≡ ROWS) × ((k : ℕ) → count ≤ k → get_or queue.old k 0 ≡ 0) }
    ensures { queue.new ≡ drop 1 queue.old ++ 0 ∷ [] }
{
    queue.copy_within(1..count, 0);
    queue[count - 1] = 0;
}

// The lowest id of the entries that are open, or LIMIT.
fn lowest_id<'a>(opens: &'a [bool], ids: &'a [u64]) -> u64
    requires { length opens.now ≡ length ids.now }
    ensures { result ≡ lowest_id_of LIMIT opens.now ids.now }
{
    let mut lowest = LIMIT;
    for i in 0..opens.len() {
        if opens[i] && ids[i] < lowest {
            lowest = ids[i];
        }
    }
    lowest
}
