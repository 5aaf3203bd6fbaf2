#![tactic(auto)]
// One reassembly: which pieces of a message are here, where each goes in the lane that is lent for
// it, and when the message is whole. Pieces come in any order, and may repeat.
ghost use Rattle.std.specs.Prelude.{◌≡◌, ◌<◌, ◌≤◌, true, length, Ok};
ghost use Rattle.words.specs.Sizes as sizes;
ghost use Rattle.slice_constructor.specs.Collect.{Valid, blank_of, begin_number, begin_refusal, BeginGives, start_of, kept_of, sized, collect_refusal, taken, lane_taken, collect_of, answer_of, CollectGives};
ghost use Rattle.slice_constructor.specs.Steps.{judged_number};

use std::marker::Model;
use words::{After, LIMIT, MessageId, PIECES, Refusal, SLICE_SIZE, SliceIndex};

// One reassembly. A blank one has no piece to come.
#[derive(Clone, Copy)]
pub struct SliceConstructor {
    message_id: MessageId,
    num_slices: usize,
    num_received_slices: usize,
    last_len: usize,
    received: [bool; PIECES],
}

// A contract sees its fields, of which `Valid` is always true.
impl Model for SliceConstructor {
    ghost use Rattle.slice_constructor.specs.State.{State};

    ghost Value = { State };

    ghost use Rattle.slice_constructor.specs.Collect.{Valid};
    ghost use Rattle.slice_constructor.specs.Fields.{state_of, fields_of};

    ghost view = { state_of };

    ghost invariant = { λ a. Valid (state_of a) };

    ghost inverse = { fields_of };
}

// Whether a reassembly was begun, and its state; a refused one's is blank.
pub type Begun = After<Result<(), Refusal>, SliceConstructor>;

// How long the message is, if the piece made it whole; None while more are to come. And the state
// after the piece.
pub type Collected = After<Result<Option<usize>, Refusal>, SliceConstructor>;

// What a lane keeps of a message: whether it is whole, how long it then is or what it is charged
// before, and what puts it together, which is blank once it is whole. No enum: the receivers write
// all three into columns, whatever they are.
#[derive(Clone, Copy)]
pub struct Kept {
    pub whole: bool,
    pub len: usize,
    pub constructor: SliceConstructor,
}

impl SliceConstructor {
    // Begins the reassembly of a message.
    pub fn new(message_id: MessageId, num_slices: u64) -> Begun
        ensures { BeginGives message_id.0 num_slices result }
    {
        match judge_new(message_id.0, num_slices) {
            Ok(()) => After {
                answer: Ok(()),
                state: SliceConstructor::empty(message_id, num_slices as usize),
            },
            Err(e) => After {
                answer: Err(e),
                state: SliceConstructor::blank(),
            },
        }
    }

    // One with no piece to come, for a lane that is not in use.
    pub fn blank() -> SliceConstructor
        ensures { (result ≡ blank_of 0 0) × Valid result }
    {
        SliceConstructor::empty(MessageId(0), 0)
    }

    // The message that it is for.
    pub fn message_id(self) -> MessageId
        ensures { result ≡ self.message_id }
    {
        self.message_id
    }

    // How many pieces the message has.
    pub fn num_slices(self) -> usize
        ensures { result ≡ self.num_slices }
    {
        self.num_slices
    }

    // Takes a piece: its bytes go to its place in the lane, the first time that it comes.
    pub fn process_slice(self, slice_index: SliceIndex, bytes: &[u8], lane: &mut [u8]) -> Collected
        ensures { CollectGives self slice_index.0 bytes.now lane.old lane.new result }
    {
        let i = slice_index.0;
        if let Err(e) = self.judge(i, bytes.len(), lane.len()) {
            return After {
                answer: Err(e),
                state: self,
            };
        }
        let state = self.take(i as usize, bytes, lane);
        After {
            answer: Ok(state.answer()),
            state,
        }
    }

    // The reassembly that a piece goes to: this one, or for a fresh message one of its own.
    pub fn start(self, fresh: bool, message_id: MessageId, num_slices: usize) -> SliceConstructor
        requires { fresh ≡ true → (message_id.0 < sizes.LIMIT) × (num_slices ≤ sizes.PIECES) }
        ensures { result ≡ start_of self fresh message_id.0 num_slices }
    {
        if fresh {
            return SliceConstructor::empty(message_id, num_slices);
        }
        self
    }

    // What a lane keeps of it.
    pub fn keep(self) -> Kept
        requires { 0 < self.num_slices }
        ensures { result ≡ kept_of self }
    {
        match self.answer() {
            Some(len) => Kept {
                whole: true,
                len,
                constructor: SliceConstructor::blank(),
            },
            None => Kept {
                whole: false,
                len: SLICE_SIZE * self.num_slices,
                constructor: self,
            },
        }
    }

    // One of which no piece is here yet.
    fn empty(message_id: MessageId, num_slices: usize) -> SliceConstructor
        requires { (message_id.0 < sizes.LIMIT) × (num_slices ≤ sizes.PIECES) }
        ensures { result ≡ blank_of message_id.0 num_slices }
    {
        SliceConstructor {
            message_id,
            num_slices,
            num_received_slices: 0,
            last_len: 0,
            received: [false; PIECES],
        }
    }

    // Whether n bytes are a right size for piece i.
    fn is_sized(&self, i: u64, n: usize) -> bool
        requires { i < self.now.num_slices }
        ensures { result ≡ sized self.now i n }
    {
        if self.num_slices as u64 == i + 1 {
            return n <= SLICE_SIZE;
        }
        n == SLICE_SIZE
    }

    // Whether a piece of n bytes may be taken, with room bytes lent for the message.
    fn judge(&self, i: u64, n: usize, room: usize) -> Result<(), Refusal>
        ensures { (judged_number result ≡ collect_refusal self.now i n room) × Valid self.now }
    {
        if room < self.num_slices * SLICE_SIZE {
            return Err(Refusal::BadStore);
        }
        if self.num_slices as u64 <= i {
            return Err(Refusal::InvalidSliceMessage);
        }
        if !self.is_sized(i, n) {
            return Err(Refusal::InvalidSliceMessage);
        }
        Ok(())
    }

    // Takes a piece that was judged good; one that is here already is left as it is.
    fn take(mut self, i: usize, bytes: &[u8], lane: &mut [u8]) -> SliceConstructor
        requires { collect_refusal self i (length bytes.now) (length lane.old) ≡ 0 }
        ensures { (result ≡ taken self i (length bytes.now)) × (lane.new ≡ lane_taken self i bytes.now lane.old) }
    {
        if self.received[i] {
            return self;
        }
        words::write_bytes(lane, i * SLICE_SIZE, bytes);
        self.received[i] = true;
        self.num_received_slices += 1;
        if i + 1 == self.num_slices {
            self.last_len = bytes.len();
        }
        self
    }

    // How long the message is, if it is whole.
    fn answer(&self) -> Option<usize>
        requires { 0 < self.now.num_slices }
        ensures { collect_of (Ok result) ≡ answer_of self.now }
    {
        if self.num_received_slices == self.num_slices {
            return Some((self.num_slices - 1) * SLICE_SIZE + self.last_len);
        }
        None
    }
}

// Whether a reassembly of so many pieces may be begun for a message with this id.
fn judge_new(id: u64, num_slices: u64) -> Result<(), Refusal>
    ensures { begin_number result ≡ begin_refusal id num_slices }
{
    if LIMIT <= id {
        return Err(Refusal::BadNumber);
    }
    if num_slices == 0 {
        return Err(Refusal::InvalidSliceMessage);
    }
    if (PIECES as u64) < num_slices {
        return Err(Refusal::TooLong);
    }
    Ok(())
}
