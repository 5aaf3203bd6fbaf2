#![tactic(auto)]
// The memory of a session. Each end's part lies in a larger buffer, one end's behind the other's.
ghost use Rattle.std.specs.Prelude.{length};
ghost use Rattle.memory.specs.Memory.{SpanGives};

use words::{PIECES, SLICE_SIZE, SLOTS};

// What memory holds at first.
pub const FRESH: u8 = 0xa5;

pub const FRESH_WORD: u64 = 0xa5a5_a5a5_a5a5_a5a5;

// The store of small messages of an end, and where those of the further ends lie.
pub const SMALL: usize = SLOTS * SLICE_SIZE;

pub const SU_SMALL: usize = SMALL;

pub const RR_SMALL: usize = 2 * SMALL;

pub const RU_SMALL: usize = 3 * SMALL;

pub const ALL_SMALL: usize = 4 * SMALL;

// The same of lanes, and the one lane of a slice constructor behind them.
pub const LANE: usize = PIECES * SLICE_SIZE;

pub const LANES: usize = words::LANES * LANE;

pub const SU_LANES: usize = LANES;

pub const RR_LANES: usize = 2 * LANES;

pub const RU_LANES: usize = 3 * LANES;

pub const SC_LANE: usize = 4 * LANES;

pub const ALL_LANES: usize = SC_LANE + LANE;

// The packets of a round of each sender, and of a written packet behind them.
pub const OUT: usize = 280_000;

pub const SU_OUT: usize = OUT;

pub const WIRE_OUT: usize = 2 * OUT;

pub const WIRE: usize = 2_048;

pub const ALL_OUT: usize = WIRE_OUT + WIRE;

// The tables of packets.
pub const TABLE: usize = 512;

pub const SU_TABLE: usize = TABLE;

pub const ALL_TABLES: usize = 2 * TABLE;

// The tables of a packet that is read.
pub const MESSAGES: usize = 192;

pub const RANGES: usize = 128;

// A line and its newline, its numbers and its bytes, and what waits to be written.
pub const INPUT: usize = 4_097;

pub const NUMBERS: usize = 200;

pub const BYTES: usize = 49_152;

pub const PAGE: usize = 4_096;

// A part of a buffer. It is copied and read twice, which a Range is not made for.
#[derive(Clone, Copy, Debug, PartialEq, Eq)]
pub struct Span {
    pub start: usize,
    pub end: usize,
}

// The part of so many elements from a place on, as far as there are any.
pub fn span_of<T>(s: &[T], from: usize, n: usize) -> Span
    ensures { SpanGives from n (length s.now) result }
{
    let start = from.min(s.len());
    let end = from.saturating_add(n).min(s.len());
    Span { start, end }
}
