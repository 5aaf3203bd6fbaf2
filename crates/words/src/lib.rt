#![tactic(auto)]
// The words that every crate of the transport shares: sizes by name, the kinds of numbers, the
// refusals, an answer with the state after it, and two helpers over lent memory.
ghost use Rattle.std.specs.Prelude.{◌≡◌, ◌+◌, ◌≤◌, length};
ghost use Rattle.words.specs.Refusal.{number_of};
ghost use Rattle.words.specs.Lists.{splice, lowest_free_of};

// A message above this length is sent in pieces of this length.
pub const SLICE_SIZE: usize = 1200;

// Most slots for small messages that a setting may ask for.
pub const SLOTS: usize = 64;

// Most lanes for sliced messages that a setting may ask for.
pub const LANES: usize = 4;

// Most pieces of a message that a setting may ask for.
pub const PIECES: usize = 40;

// Most bytes of memory that a setting may ask for.
pub const MAX_MEMORY: usize = 1_000_000;

// Most pieces that a packet may claim for its message.
pub const MAX_NUM_SLICES: u64 = 1_000_000;

// Most messages of one packet.
pub const MAX_MESSAGES: usize = 65_535;

// Ids, sequences and all numbers that a varint can say are below this.
pub const LIMIT: u64 = 1 << 62;

// The number of a packet.
#[derive(Clone, Copy, Debug, PartialEq, Eq, PartialOrd, Ord)]
pub struct Sequence(pub u64);

// The number of a message.
#[derive(Clone, Copy, Debug, PartialEq, Eq, PartialOrd, Ord)]
pub struct MessageId(pub u64);

// The place of a piece in its message.
#[derive(Clone, Copy, Debug, PartialEq, Eq, PartialOrd, Ord)]
pub struct SliceIndex(pub u64);

// Why a call did nothing. The names of 1 to 8 are renet's.
#[derive(Clone, Copy, Debug, PartialEq, Eq)]
pub enum Refusal {
    BufferTooShort = 1,
    InvalidNumSlices,
    SliceSizeAboveLimit,
    EmptySlice,
    InvalidAckRange,
    InvalidPacketType,
    ReliableChannelMaxMemoryReached,
    InvalidSliceMessage,
    BadSettings,
    BadStore,
    TableFull,
    TooLong = 12,
    BadNumber,
    ClockBack,
    NoRoom,
    WrongKind,
    BadIndex,
}

impl Refusal {
    // The number of a refusal, 1 to 17.
    pub fn number(self) -> u8
        ensures { result ≡ number_of self }
    {
        self as u8
    }
}

// What a call answers, and the state after it.
#[derive(Clone, Copy)]
pub struct After<A, S> {
    pub answer: A,
    pub state: S,
}

// Copies all of src to a place with room for it, and answers the place after it.
pub fn write_bytes(out: &mut [u8], at: usize, src: &[u8]) -> usize
    requires { at + length src.now ≤ length out.old }
    ensures { (result ≡ at + length src.now) × (out.new ≡ splice at src.now out.old) }
{
    // Of nothing the copy would still be a call, which an empty message feels.
    let n = src.len();
    if n == 0 {
        return at;
    }
    let end = at + n;
    out[at..end].copy_from_slice(src);
    end
}

// The lowest index below n at which nothing is held, or n.
pub fn lowest_free(held: &[bool], n: usize) -> usize
    requires { n ≤ length held.now }
    ensures { result ≡ lowest_free_of held.now n }
{
    for i in 0..n {
        if !held[i] {
            return i;
        }
    }
    n
}
