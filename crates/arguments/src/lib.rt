#![tactic(auto)]
// The calls that an end has, and their arguments.
ghost use Rattle.std.specs.Prelude.{◌≡◌, List, ℕ, length, set, ltb};
ghost use Rattle.script.specs.Numbers.{number_of};
ghost use Rattle.script.specs.Bytes.{bytes_of};
ghost use Rattle.page.specs.Page.{sheet};
ghost use Rattle.arguments.specs.Arguments.{number_fault, bytes_fault, called_with, numbered_of, leaves, found, most_of, place_after, number_taken, bytes_taken, argument_taken, ended_of, further_taken, taken_by, begun, taken_apart_of};
ghost use Rattle.arguments.specs.Said.{fault_of, bad_said};
ghost use Rattle.arguments.specs.Sizes.{MORE};

use script::{BytesFault, NumberFault, Word};

// The largest channel, and the largest two-byte count.
const CHANNEL: usize = 255;

const COUNT: usize = 65_535;

// The most further numbers of a call that takes some.
const MORE: usize = 192;

// What is wrong with an argument.
#[derive(Clone, Copy, Debug, PartialEq, Eq)]
pub enum Fault {
    Missing,
    NotANumber,
    TooLarge,
    NotBytes,
    TooMany,
    OneTooMany,
}

impl From<NumberFault> for Fault {
    ghost from_gives = { λ e f. f ≡ number_fault e };

    fn from(e: NumberFault) -> Fault {
        match e {
            NumberFault::NotANumber => Fault::NotANumber,
            NumberFault::TooLarge => Fault::TooLarge,
        }
    }
}

impl From<BytesFault> for Fault {
    ghost from_gives = { λ e f. f ≡ bytes_fault e };

    fn from(e: BytesFault) -> Fault {
        match e {
            BytesFault::NotBytes => Fault::NotBytes,
            BytesFault::TooMany => Fault::TooMany,
        }
    }
}

// A line taken apart: which call of the list (a number, as `taken_apart_of` has it), how many numbers and how
// many bytes.
#[derive(Clone, Copy, Debug, PartialEq, Eq)]
pub struct Call {
    pub call: usize,
    pub numbers: usize,
    pub bytes: usize,
}

// What is wrong with a line; of a fault also which argument has it, counted from 1.
#[derive(Clone, Copy, Debug, PartialEq, Eq)]
pub enum LineFault {
    NoEnd,
    NoCall,
    Bad(usize, Fault),
}

pub type Read = Result<Call, LineFault>;

// How far the arguments are read: the place, how many they are, and the numbers and bytes among them.
#[derive(Clone, Copy)]
struct Taken {
    at: usize,
    count: usize,
    numbers: usize,
    bytes: usize,
}

// Takes a line apart from the word of the call on. A call stands in the list as its name and the form of
// its arguments, a letter for each: n is a number, b are bytes, w are further numbers, and any other a
// number with an upper limit; `-` is none.
pub fn taken_apart(
    calls: &[u8],
    line: &[u8],
    from: usize,
    numbers: &mut [u64],
    bytes: &mut [u8],
) -> Read
    ensures { leaves result numbers.new bytes.new ≡ taken_apart_of calls.now line.now from numbers.old bytes.old }
{
    let w = script::next_word(line, from);
    let (k, form) = find(calls, script::letters(line, w)).ok_or(LineFault::NoCall)?;
    take(k, script::letters(calls, form), line, w.end, numbers, bytes)
}

// A call by its name, and the form of its arguments.
fn find(calls: &[u8], name: &[u8]) -> Option<(usize, Word)>
    ensures { result ≡ found calls.now name.now }
{
    let mut at = 0;
    for k in 0..calls.len() {
        let w = script::next_word(calls, at);
        if !has(w) {
            return None;
        }
        let form = script::next_word(calls, w.end);
        if script::is(script::letters(calls, w), name) {
            return Some((k, form));
        }
        at = form.end;
    }
    None
}

fn has(w: Word) -> bool
    ensures { result ≡ ltb w.start w.end }
{
    w.start < w.end
}

// Takes the arguments of the k-th call.
fn take(
    k: usize,
    form: &[u8],
    line: &[u8],
    from: usize,
    numbers: &mut [u64],
    bytes: &mut [u8],
) -> Read
    ensures { leaves result numbers.new bytes.new ≡ taken_by k form.now line.now (begun from) numbers.old bytes.old }
{
    let mut t = Taken {
        at: from,
        count: 0,
        numbers: 0,
        bytes: 0,
    };
    for c in form {
        if *c == b'w' {
            return further(k, line, t, numbers);
        }
        t = numbered(t.count, argument(*c, line, t, numbers, bytes))?;
    }
    ended(k, line, t)
}

// A fault is told of the argument behind those before it.
fn numbered(before: usize, r: Result<Taken, Fault>) -> Result<Taken, LineFault>
    ensures { result ≡ numbered_of before r }
{
    r.map_err(|e| LineFault::Bad(page::after(before), e))
}

// Takes one argument of a form.
fn argument(
    form: u8,
    line: &[u8],
    t: Taken,
    numbers: &mut [u64],
    bytes: &mut [u8],
) -> Result<Taken, Fault>
    ensures { leaves result numbers.new bytes.new ≡ argument_taken form line.now t numbers.old bytes.old }
{
    if form == b'-' {
        return Ok(t);
    }
    let w = script::next_word(line, t.at);
    if !has(w) {
        return Err(Fault::Missing);
    }
    let text = script::letters(line, w);
    if form == b'b' {
        return some_bytes(text, w.end, t, bytes);
    }
    one_number(text, most(form), w.end, t, numbers)
}

// The largest number of a form: a channel, a two-byte count, or how much there is to be lent. Forms are letters,
// as the list of an end's calls has them and `taken_apart_of` reads them.
#[tactic(auto, unfolding(crate::specs::Arguments::most_of))]
fn most(form: u8) -> usize
    ensures { result ≡ most_of form }
{
    match form {
        b'c' => CHANNEL,
        b'h' => COUNT,
        b'S' => memory::SMALL,
        b'L' => memory::LANES,
        b'O' => memory::OUT,
        b'T' => memory::TABLE,
        b'E' => memory::LANE,
        b'M' => memory::MESSAGES,
        b'R' => memory::RANGES,
        b'W' => memory::WIRE,
        _ => usize::MAX,
    }
}

// Takes bytes that end at a place of the line.
fn some_bytes(text: &[u8], end: usize, t: Taken, bytes: &mut [u8]) -> Result<Taken, Fault>
    ensures { (ns : List ℕ) → leaves result ns bytes.new ≡ bytes_taken end t ns bytes.old (bytes_of (length bytes.old) text.now) }
{
    let n = script::bytes_of(text, bytes)?;
    Ok(Taken {
        at: end,
        count: page::after(t.count),
        bytes: n,
        ..t
    })
}

// Takes a number that ends at a place of the line.
fn one_number(
    text: &[u8],
    most: usize,
    end: usize,
    t: Taken,
    numbers: &mut [u64],
) -> Result<Taken, Fault>
    ensures { (bs : List ℕ) → leaves result numbers.new bs ≡ number_taken most end t numbers.old bs (number_of text.now) }
{
    let v = script::number_of(text)?;
    if (most as u64) < v {
        return Err(Fault::TooLarge);
    }
    Ok(Taken {
        at: end,
        count: page::after(t.count),
        numbers: put(numbers, t.numbers, v),
        ..t
    })
}

// Sets a word down in a table that has room for it, and answers the place after it.
fn put(t: &mut [u64], i: usize, v: u64) -> usize
    ensures { (result ≡ place_after (length t.old) i) × (t.new ≡ set t.old i v) }
{
    if i < t.len() {
        t[i] = v;
        return i + 1;
    }
    i
}

// Takes up to MORE numbers.
fn further(k: usize, line: &[u8], first: Taken, numbers: &mut [u64]) -> Read
    ensures { (bs : List ℕ) → leaves result numbers.new bs ≡ further_taken MORE k line.now first numbers.old bs }
{
    let mut t = first;
    for _ in 0..MORE {
        let w = script::next_word(line, t.at);
        if !has(w) {
            return Ok(called(k, t));
        }
        let text = script::letters(line, w);
        t = numbered(t.count, one_number(text, usize::MAX, w.end, t, numbers))?;
    }
    ended(k, line, t)
}

// Nothing stands behind the last argument.
#[tactic(auto, unfolding(crate::specs::Arguments::ended_of))]
fn ended(k: usize, line: &[u8], t: Taken) -> Read
    ensures { result ≡ ended_of k line.now t }
{
    if has(script::next_word(line, t.at)) {
        return Err(LineFault::Bad(page::after(t.count), Fault::OneTooMany));
    }
    Ok(called(k, t))
}

// The k-th call, with what was taken.
fn called(k: usize, t: Taken) -> Call
    ensures { result ≡ called_with k t }
{
    Call {
        call: k,
        numbers: t.numbers,
        bytes: t.bytes,
    }
}

// Says what is wrong with a line.
#[tactic(auto, unfolding(crate::specs::Said::bad_said))]
pub fn bad(page: &mut [u8], at: usize, r: Read) -> usize
    ensures { sheet page.new result ≡ bad_said r (sheet page.old at) }
{
    let a = page::text(page, at, b"bad line: ");
    match r {
        Ok(_) => a,
        Err(LineFault::NoEnd) => page::text(page, a, b"no such end\n"),
        Err(LineFault::NoCall) => page::text(page, a, b"no such call\n"),
        Err(LineFault::Bad(k, e)) => {
            let b = page::line(page, a, b"argument #: ", &[k as u64]);
            page::text(page, b, told(e))
        }
    }
}

// A fault in words.
fn told(e: Fault) -> &'static [u8]
    ensures { result.now ≡ fault_of e }
{
    match e {
        Fault::Missing => b"missing\n",
        Fault::NotANumber => b"not a number\n",
        Fault::TooLarge => b"too large\n",
        Fault::NotBytes => b"not bytes\n",
        Fault::TooMany => b"too many bytes\n",
        Fault::OneTooMany => b"one too many\n",
    }
}
