#![tactic(auto)]
// Calls on one reassembly.
ghost use Rattle.std.specs.Prelude.{◌≡◌, get_or};
ghost use Rattle.slice_constructor.specs.Collect.{Valid};
ghost use Rattle.script.specs.Ascii.{ascii};
ghost use Rattle.arguments.specs.Arguments.{leaves, taken_apart_of};
ghost use Rattle.memory.specs.Sizes.{LANE};
ghost use Rattle.session_sc.specs.Lend.{lent_after_of};

use answers::packets;
use arguments::Read;
use memory::LANE;
use slice_constructor::SliceConstructor;
use std::marker::Model;
use words::{MessageId, Refusal, SliceIndex};

// The reassembly, and how many bytes of its lane are lent.
#[derive(Clone, Copy)]
pub struct End {
    pub state: SliceConstructor,
    pub lane: usize,
}

// A contract sees its fields. That the reassembly is valid is always true of them.
impl Model for End {
    ghost use Rattle.session_sc.specs.State.{State};

    ghost Value = { State };

    ghost use Rattle.slice_constructor.specs.Collect.{Valid};
    ghost use Rattle.session_sc.specs.Fields.{state_of, fields_of};

    ghost view = { state_of };

    ghost invariant = { λ a. Valid a.state };

    ghost inverse = { fields_of };
}

// The reassembly after a call, and the place after the answer.
// A place and no answer stands beside the state, so it is not `After`.
#[derive(Clone, Copy)]
pub struct Told {
    pub end: End,
    pub at: usize,
}

// The reassembly at first.
pub fn start() -> End
    ensures { Valid result.state × (result.lane ≡ LANE) }
{
    let begun = SliceConstructor::new(MessageId(0), 1);
    End {
        state: begun.state,
        lane: LANE,
    }
}

// The calls, in the order of the numbers below, and `digest`: a line that is read tells a call by its place in the list.
pub fn read(line: &[u8], from: usize, numbers: &mut [u64], bytes: &mut [u8]) -> Read
    ensures { leaves result numbers.new bytes.new ≡ taken_apart_of (ascii "new nn slice nb lend E digest -") line.now from numbers.old bytes.old }
{
    arguments::taken_apart(
        b"new nn slice nb lend E digest -",
        line,
        from,
        numbers,
        bytes,
    )
}

// The call numbers stay `usize`: `lent_after_of`, in the contract of `call`, names them so.
const NEW: usize = 0;

const SLICE: usize = 1;

const LEND: usize = 2;

// Makes the k-th call and answers it.
pub fn call(
    e: End,
    k: usize,
    numbers: &[u64],
    bytes: &[u8],
    lane: &mut [u8],
    page: &mut [u8],
    at: usize,
) -> Told
    ensures { Valid result.end.state × (result.end.lane ≡ lent_after_of k numbers.now e.lane) }
{
    let t = answer(e, k, numbers, bytes, lane, page, at);
    Told {
        end: t.end,
        at: page::text(page, t.at, b"\n"),
    }
}

fn answer(
    e: End,
    k: usize,
    numbers: &[u64],
    bytes: &[u8],
    lane: &mut [u8],
    page: &mut [u8],
    at: usize,
) -> Told
    ensures { Valid result.end.state × (result.end.lane ≡ lent_after_of k numbers.now e.lane) }
{
    match k {
        NEW => new(e, numbers, page, at),
        SLICE => slice(e, page::word(numbers, 0), bytes, lane, page, at),
        LEND => lend(e, numbers, page, at),
        _ => digest(e, lane, page, at),
    }
}

fn new(e: End, numbers: &[u64], page: &mut [u8], at: usize) -> Told
    ensures { Valid result.end.state × (result.end.lane ≡ e.lane) }
{
    let begun = SliceConstructor::new(MessageId(page::word(numbers, 0)), page::word(numbers, 1));
    match begun.answer {
        Ok(()) => {
            let a = page::text(page, at, b"ready");
            with(e, begun.state, a)
        }
        Err(why) => {
            let a = page::refusal(page, at, why);
            Told { end: e, at: a }
        }
    }
}

// The reassembly after a call.
fn with(e: End, state: SliceConstructor, at: usize) -> Told
    requires { Valid state }
    ensures { Valid result.end.state × (result.end.lane ≡ e.lane) }
{
    Told {
        end: End { state, ..e },
        at,
    }
}

fn lend(e: End, numbers: &[u64], page: &mut [u8], at: usize) -> Told
    ensures { Valid result.end.state × (result.end.lane ≡ get_or numbers.now 0 0) }
{
    let a = page::line(page, at, b"lent lane #", numbers);
    Told {
        end: End {
            lane: page::size(numbers, 0),
            ..e
        },
        at: a,
    }
}

fn digest(e: End, lane: &[u8], page: &mut [u8], at: usize) -> Told
    ensures { Valid result.end.state × (result.end.lane ≡ e.lane) }
{
    let a = page::line(page, at, b"lane #", &[say::digest_bytes(lane)]);
    Told { end: e, at: a }
}

fn slice(e: End, index: u64, bytes: &[u8], lane: &mut [u8], page: &mut [u8], at: usize) -> Told
    ensures { Valid result.end.state × (result.end.lane ≡ e.lane) }
{
    let n = page::part(e.lane, lane);
    let r = e
        .state
        .process_slice(SliceIndex(index), bytes, &mut lane[..n]);
    let a = say_collect(page, at, r.answer, lane);
    with(e, r.state, a)
}

// Says how long the message is, and its bytes, if it is whole.
fn say_collect(
    page: &mut [u8],
    at: usize,
    c: Result<Option<usize>, Refusal>,
    lane: &[u8],
) -> usize {
    match c {
        Ok(None) => page::text(page, at, b"more"),
        Ok(Some(len)) => {
            let a = page::line(page, at, b"whole # ", &[len as u64]);
            page::bytes(page, a, packets::bytes_at(lane, 0, len))
        }
        Err(why) => page::refusal(page, at, why),
    }
}
