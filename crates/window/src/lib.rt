#![tactic(auto)]
// When a message may be queued. A receiver has so many slots, so many lanes and so much memory. A sender that queues
// more than they hold, counted from its oldest unacknowledged message, may find them full of later messages when that
// one arrives, and so for ever. A window is kept beside the sender, and says when to wait.
ghost use Rattle.std.specs.Prelude.{◌≡◌, ◌≤◌, length, take, drop};
ghost use Rattle.channel.specs.Settings.{Good};
ghost use Rattle.window.specs.Rule.{load_of};
ghost use Rattle.window.specs.Window.{ROWS, table, new_of, kept, MadeGives, room_number, queue_refusal, QueuedGives};
ghost use Rattle.window.specs.Steps.{one_of, Bounded, plus, Holds, minus, step_of, judged, spot_of};

use channel::{ROWS, Settings};
use std::marker::Model;
use words::{After, LIMIT, MessageId, Refusal, SLICE_SIZE};

// What messages may take of a receiver: slots, lanes and memory.
#[derive(Clone, Copy, Debug, PartialEq, Eq)]
pub struct Load {
    small: usize,
    sliced: usize,
    charge: usize,
}

// The lengths of the messages from `first` on: `count` of them at the front of the table, and 0 past them (a count beside
// a table, since all memory is fixed). `load` is what they may take.
#[derive(Clone, Copy)]
pub struct Window {
    settings: Settings,
    first: u64,
    count: usize,
    lens: [u32; ROWS],
    load: Load,
}

// A contract sees its fields, of which `Valid` is always true.
impl Model for Window {
    ghost use Rattle.window.specs.State.{State};

    ghost Value = { State };

    ghost use Rattle.window.specs.Window.{Valid};
    ghost use Rattle.window.specs.Fields.{state_of, fields_of};

    ghost view = { state_of };

    ghost invariant = { λ a. Valid (state_of a) };

    ghost inverse = { fields_of };
}

// Whether a window was set up, and the window.
pub type Made = After<Result<(), Refusal>, Window>;

// Whether a message was counted, and the window.
pub type Counted = After<Result<(), Refusal>, Window>;

// What the rule says of a message that may go: how many of those kept are no longer under way, and what the others may
// take together with it.
#[derive(Clone, Copy)]
struct Step {
    gone: usize,
    load: Load,
}

impl Load {
    // What one message may take: a small one its length, a sliced one 1,200 for each piece.
    fn of(len: u32) -> Load
        ensures { result ≡ one_of len }
    {
        let n = len as usize;
        if n <= SLICE_SIZE {
            return Load {
                small: 1,
                sliced: 0,
                charge: n,
            };
        }
        Load {
            small: 0,
            sliced: 1,
            charge: SLICE_SIZE * ((n + (SLICE_SIZE - 1)) / SLICE_SIZE),
        }
    }

    fn plus(self, other: Load) -> Load
        requires { Bounded self × Bounded other }
        ensures { result ≡ plus self other }
    {
        Load {
            small: self.small + other.small,
            sliced: self.sliced + other.sliced,
            charge: self.charge + other.charge,
        }
    }

    fn minus(self, other: Load) -> Load
        requires { Holds self other }
        ensures { result ≡ minus self other }
    {
        Load {
            small: self.small - other.small,
            sliced: self.sliced - other.sliced,
            charge: self.charge - other.charge,
        }
    }
}

// Whether a receiver of these settings has room for a message of this length beside others.
fn judge(settings: Settings, gone: usize, others: Load, len: usize) -> Result<Step, Refusal>
    requires { Good settings × Bounded others }
    ensures { step_of result ≡ judged settings gone (plus others (one_of len)) len }
{
    if settings.pieces * SLICE_SIZE < len {
        return Err(Refusal::TooLong);
    }
    let load = others.plus(Load::of(len as u32));
    if settings.max_memory_usage_bytes < load.charge {
        return Err(Refusal::ReliableChannelMaxMemoryReached);
    }
    if settings.slots < load.small {
        return Err(Refusal::TableFull);
    }
    if settings.lanes < load.sliced {
        return Err(Refusal::TableFull);
    }
    Ok(Step { gone, load })
}

// The lengths from one place up to another, at the front of a table.
fn moved_up(lens: [u32; ROWS], from: usize, to: usize) -> [u32; ROWS]
    requires { (from ≤ to) × (to ≤ ROWS) × (length lens ≡ ROWS) }
    ensures { result ≡ table (drop from (take to lens)) }
{
    let mut moved = [0; ROWS];
    moved[..to - from].copy_from_slice(&lens[from..to]);
    moved
}

impl Window {
    // A window of no messages, over a receiver of these settings. Where they are refused it has the least ones.
    pub fn new(settings: Settings) -> Made
        ensures { MadeGives settings result }
    {
        let settled = settings.settle();
        let used = settled.settings;
        After {
            answer: settled.answer,
            state: Window::empty(used),
        }
    }

    // Whether a message of this length may be queued now, where `oldest` is the sender's oldest unacknowledged one. Its
    // sender has to wait where the receiver might have to refuse one: 7 for memory, 11 for a slot or a lane. A message
    // above the receiver's piece limit never goes (12). 13 tells of an oldest message above the next one, or below one
    // that was named when a message was counted; no other wrong one is noticed.
    pub fn can_queue(self, oldest: MessageId, len: usize) -> Result<(), Refusal>
        ensures { room_number result ≡ queue_refusal self oldest.0 len }
    {
        self.step(oldest.0, len)?;
        Ok(())
    }

    // Counts a message that was queued. Where it might not be, it isn't counted.
    pub fn queued(mut self, oldest: MessageId, len: usize) -> Counted
        ensures { QueuedGives self oldest.0 len result }
    {
        let step = match self.step(oldest.0, len) {
            Ok(step) => step,
            Err(e) => {
                return After {
                    answer: Err(e),
                    state: self,
                };
            }
        };
        let count = self.count;
        let left = count - step.gone;
        let before = self.lens;
        let mut lens = moved_up(before, step.gone, count);
        lens[left] = len as u32;
        self.first = oldest.0;
        self.count = left + 1;
        self.lens = lens;
        self.load = step.load;
        After {
            answer: Ok(()),
            state: self,
        }
    }

    fn empty(settings: Settings) -> Window
        requires { Good settings }
        ensures { result ≡ new_of settings }
    {
        Window {
            settings,
            first: 0,
            count: 0,
            lens: [0; ROWS],
            load: Load {
                small: 0,
                sliced: 0,
                charge: 0,
            },
        }
    }

    // What the rule says of a message. Counting starts at the oldest unacknowledged one.
    fn step(&self, oldest: u64, len: usize) -> Result<Step, Refusal>
        ensures { step_of result ≡ spot_of self.now oldest len }
    {
        let first = self.first;
        let next = first + self.count as u64;
        if oldest < first {
            return Err(Refusal::BadNumber);
        }
        if next < oldest {
            return Err(Refusal::BadNumber);
        }
        if LIMIT <= next {
            return Err(Refusal::BadNumber);
        }
        let gone = (oldest - first) as usize;
        let others = self.load_without(gone);
        let settings = self.settings;
        judge(settings, gone, others, len)
    }

    // What the messages that are kept may take, without the first ones. By value: the compiler then copies the window
    // past the tests of `step`, and not before them.
    fn load_without(self, gone: usize) -> Load
        requires { gone ≤ self.count }
        ensures { result ≡ load_of (drop gone (kept self)) }
    {
        let mut load = self.load;
        for len in self.lens[..gone].iter() {
            load = load.minus(Load::of(*len));
        }
        load
    }
}
