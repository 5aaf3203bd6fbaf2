#![tactic(auto)]
// The script program: a script of packets and calls is read from standard input, and each answer is
// printed. docs/SCRIPT.md has the language.

use answers::Call;
use arguments::LineFault;
use ends::{Ends, Memory, Which};
use lines::{Line, Lines};
use script::Word;

mod ends;

// The standard input.
const STDIN: i32 = 0;

fn main() {
    let mut text = Text {
        input: [0; memory::INPUT],
        numbers: [0; memory::NUMBERS],
        bytes: [0; memory::BYTES],
    };
    let mut memory = Memory {
        small: [memory::FRESH; memory::ALL_SMALL],
        lanes: [memory::FRESH; memory::ALL_LANES],
        out: [memory::FRESH; memory::ALL_OUT],
        table: [memory::FRESH_WORD; memory::ALL_TABLES],
        messages: [memory::FRESH_WORD; memory::MESSAGES],
        ranges: [memory::FRESH_WORD; memory::RANGES],
        page: [0; memory::PAGE],
    };
    run(&mut text, &mut memory);
}

// What is read of a script, and a line's numbers and bytes.
#[derive(Drop)]
struct Text {
    input: [u8; memory::INPUT],
    numbers: [u64; memory::NUMBERS],
    bytes: [u8; memory::BYTES],
}

// Where a script and its answers stand: the lines that are left, how many there were, the place after
// the last answer, and whether the input has ended.
#[derive(Clone, Copy)]
struct Script {
    lines: Lines,
    count: u64,
    at: usize,
    over: bool,
}

// A call of an end, with so many numbers and bytes.
#[derive(Clone, Copy)]
struct Request {
    which: Which,
    call: arguments::Call,
}

// How far a script is answered.
#[derive(Clone, Copy)]
struct Session {
    ends: Ends,
    script: Script,
}

// Answers one line after the other until the input ends. The range stands for no end: a loop without one would
// have to be let wait.
fn run(text: &mut Text, memory: &mut Memory) {
    let mut s = start();
    for _ in 0..u64::MAX {
        turn(&mut s, text, memory);
        if s.script.over {
            return;
        }
    }
}

fn start() -> Session {
    Session {
        ends: ends::start(),
        script: Script {
            lines: Lines::new(),
            count: 0,
            at: 0,
            over: false,
        },
    }
}

// Answers the next line.
fn turn(s: &mut Session, text: &mut Text, memory: &mut Memory) {
    if let Some(request) = next(&mut s.script, text, &mut memory.page) {
        answer(s, request, text, memory);
    }
}

// Makes the call that a line asks for.
fn answer(s: &mut Session, request: Request, text: &Text, memory: &mut Memory) {
    let c = page::part(request.call.numbers, &text.numbers);
    let b = page::part(request.call.bytes, &text.bytes);
    let call = Call {
        k: request.call.call,
        n: s.script.count,
        at: s.script.at,
    };
    s.script.at = ends::answer(
        &mut s.ends,
        request.which,
        call,
        &text.numbers[..c],
        &text.bytes[..b],
        memory,
    );
}

// Takes the next line apart, or reads more of the input. At its end the page is written out.
fn next(s: &mut Script, text: &mut Text, page: &mut [u8]) -> Option<Request> {
    let step = s.lines.next(&text.input);
    s.lines = step.state;
    match step.answer {
        Line::End => {
            s.at = page::flush(page, s.at);
            s.over = true;
            None
        }
        Line::Unread => {
            s.lines = step.state.refill(STDIN, &mut text.input);
            None
        }
        Line::TooLong => {
            s.count = s.count.saturating_add(1);
            s.at = page::line(page, s.at, b"#: bad line: too long\n", &[s.count]);
            None
        }
        Line::At(start, end) => {
            s.count = s.count.saturating_add(1);
            let letters = script::letters(&text.input, Word { start, end });
            line(s, letters, &mut text.numbers, &mut text.bytes, page)
        }
    }
}

// Takes a line apart. One with no word asks for nothing, and what is wrong with a line is said.
fn line(
    s: &mut Script,
    text: &[u8],
    numbers: &mut [u64],
    bytes: &mut [u8],
    page: &mut [u8],
) -> Option<Request> {
    let w = script::next_word(text, 0);
    if w.end <= w.start {
        return None;
    }
    s.at = page::line(page, s.at, b"#: ", &[s.count]);
    match understood(text, w, numbers, bytes) {
        Ok(request) => Some(request),
        Err(e) => {
            s.at = arguments::bad(page, s.at, Err(e));
            None
        }
    }
}

// The call that a line asks for, behind the word that names the end.
fn understood(
    text: &[u8],
    w: Word,
    numbers: &mut [u64],
    bytes: &mut [u8],
) -> Result<Request, LineFault> {
    let which = which_of(script::letters(text, w)).ok_or(LineFault::NoEnd)?;
    let call = match which {
        Which::Wire => session_wire::read(text, w.end, numbers, bytes),
        Which::Sc => session_sc::read(text, w.end, numbers, bytes),
        Which::Send(reliable) => session_send::read(reliable, text, w.end, numbers, bytes),
        Which::Receive(reliable) => session_receive::read(reliable, text, w.end, numbers, bytes),
    }?;
    Ok(Request { which, call })
}

fn which_of(name: &[u8]) -> Option<Which> {
    match name {
        b"wire" => Some(Which::Wire),
        b"sc" => Some(Which::Sc),
        b"sr" => Some(Which::Send(true)),
        b"su" => Some(Which::Send(false)),
        b"rr" => Some(Which::Receive(true)),
        b"ru" => Some(Which::Receive(false)),
        _ => None,
    }
}
