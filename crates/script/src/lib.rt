#![tactic(auto)]
// A line of a script taken apart: its words, and the numbers and bytes that words spell.
//
// Every function answers for every input, in time that grows with the input's length alone.
ghost use Rattle.std.specs.Prelude.{◌≡◌, ℕ, Bool, true, false, eqb, ◌+◌, ◌*◌, ◌-◌, ◌%◌, ◌≤◌, ◌<◌, length, Ok};
ghost use Rattle.words.specs.Lists.{splice, all};
ghost use Rattle.script.specs.Words.{newline, blank, until as place_of, word_at, letters_of, same};
ghost use Rattle.script.specs.Numbers.{digit, below, digits_of, raised, lowered, joined, power_of, number_of};
ghost use Rattle.script.specs.Bytes.{hex_of, hex, pair_of, pairs_of, then, stretch, plain_of, stretch_of, part_of, bytes_fault, Adds, Fills, bytes_of};

// A word of a line: the place of its first letter, and the place after its last.
#[derive(Clone, Copy, Debug, PartialEq, Eq)]
pub struct Word {
    pub start: usize,
    pub end: usize,
}

// Why a word spells no number.
#[derive(Clone, Copy, Debug, PartialEq, Eq)]
pub enum NumberFault {
    NotANumber,
    TooLarge,
}

// Why a word spells no bytes that were set down.
#[derive(Clone, Copy, Debug, PartialEq, Eq)]
pub enum BytesFault {
    NotBytes,
    TooMany,
}

// A count that is no number spells no bytes, and one that is too large spells too many.
impl From<NumberFault> for BytesFault {
    ghost from_gives = { λ f g. g ≡ bytes_fault f };

    fn from(fault: NumberFault) -> BytesFault {
        match fault {
            NumberFault::NotANumber => BytesFault::NotBytes,
            NumberFault::TooLarge => BytesFault::TooMany,
        }
    }
}

fn is_blank(c: u8) -> bool
    ensures { result ≡ blank c }
{
    matches!(c, b' ' | b'\t' | b'\r')
}

// The place of the first letter that passes a test, from a place on, or the end.
fn until<P: Fn(u8) -> bool>(s: &[u8], from: usize, passes: P) -> usize
    requires { P.IsAlwaysCallable passes }
    ensures { (p : ℕ → Bool) → ((c : ℕ) (r : Bool) → P.post passes c r → r ≡ p c) → result ≡ place_of p s.now from }
{
    for i in from..s.len() {
        if passes(s[i]) {
            return i;
        }
    }
    from.max(s.len())
}

// The end of the line at a place of a text: its newline, or the end of the text.
pub fn line_end(text: &[u8], from: usize) -> usize
    ensures { result ≡ place_of newline text.now from }
{
    until(text, from, |c| c == b'\n')
}

// The next word from a place on. At a comment and at the end of the line it has no letter.
pub fn next_word(line: &[u8], from: usize) -> Word
    ensures { result ≡ word_at line.now from }
{
    let start = until(line, from, |c| !is_blank(c));
    let end = until(line, start, |c| c == b'#' || is_blank(c));
    Word { start, end }
}

// The letters of a word.
pub fn letters(line: &[u8], w: Word) -> &[u8]
    ensures { result.now ≡ letters_of line.now w }
{
    let end = w.end.min(line.len());
    let start = w.start.min(end);
    &line[start..end]
}

// Whether a text is a name.
pub fn is(text: &[u8], name: &[u8]) -> bool
    ensures { result ≡ same text.now name.now }
{
    text == name
}

// What digits stand for with one digit more.
fn grow(v: u64, c: u8) -> Result<u64, NumberFault>
    requires { digit c ≡ true }
    ensures { result ≡ below (v * 10 + (c - 48)) }
{
    let d = u64::from(c - b'0');
    let grown = v.checked_mul(10).and_then(|tens| tens.checked_add(d));
    grown.ok_or(NumberFault::TooLarge)
}

fn all_digits(s: &[u8]) -> bool
    ensures { result ≡ all digit s.now }
{
    s.iter().all(|c| c.is_ascii_digit())
}

// DIGITS: a number of decimal digits alone.
fn digits(s: &[u8]) -> Result<u64, NumberFault>
    ensures { result ≡ digits_of s.now }
{
    if s.is_empty() || !all_digits(s) {
        return Err(NumberFault::NotANumber);
    }
    let mut v = 0;
    for c in s {
        v = grow(v, *c)?;
    }
    Ok(v)
}

// The number, where it is below 2^64.
fn fitting(n: u128) -> Result<u64, NumberFault>
    ensures { result ≡ below n }
{
    u64::try_from(n).map_err(|_| NumberFault::TooLarge)
}

// 2^k and d more.
fn raise(k: u64, d: u64) -> Result<u64, NumberFault>
    ensures { result ≡ raised k d }
{
    if 64 < k {
        return Err(NumberFault::TooLarge);
    }
    fitting((1 << k) + u128::from(d))
}

// 2^k and d fewer. 2^64 itself is no u64, but with one or more fewer it is.
fn lower(k: u64, d: u64) -> Result<u64, NumberFault>
    ensures { result ≡ lowered k d }
{
    if 64 < k {
        return Err(NumberFault::TooLarge);
    }
    let p: u128 = 1 << k;
    let d = u128::from(d);
    if p < d {
        return Err(NumberFault::NotANumber);
    }
    fitting(p - d)
}

// Of two DIGITS the form of both is judged before the size of either.
fn join(
    minus: bool,
    k: Result<u64, NumberFault>,
    d: Result<u64, NumberFault>,
) -> Result<u64, NumberFault>
    ensures { result ≡ joined minus k d }
{
    if let Err(NumberFault::NotANumber) = k {
        return k;
    }
    let y = d?;
    let x = k?;
    if minus { lower(x, y) } else { raise(x, y) }
}

// What stands behind 2^.
fn power(s: &[u8]) -> Result<u64, NumberFault>
    ensures { result ≡ power_of s.now }
{
    let i = until(s, 0, |c| c == b'+' || c == b'-');
    if s.len() <= i {
        return join(false, digits(s), Ok(0));
    }
    let minus = s[i] == b'-';
    let k = digits(&s[..i]);
    let d = digits(&s[i + 1..]);
    join(minus, k, d)
}

// The number that a word spells: 37, 2^62, 2^62-1 or 2^62+1, below 2^64.
pub fn number_of(text: &[u8]) -> Result<u64, NumberFault>
    ensures { result ≡ number_of text.now }
{
    match text {
        [b'2', b'^', rest @ ..] => power(rest),
        _ => digits(text),
    }
}

// Whether a letter is a hex digit in lower case.
fn is_hex(c: u8) -> bool
    ensures { result ≡ hex c }
{
    matches!(c, b'0'..=b'9' | b'a'..=b'f')
}

// What a hex digit stands for.
fn hex_digit(c: u8) -> u8
    requires { hex c ≡ true }
    ensures { (result ≡ hex_of c) × (result < 16) }
{
    if c <= b'9' { c - b'0' } else { c - b'a' + 10 }
}

fn all_hex(s: &[u8]) -> bool
    ensures { result ≡ all hex s.now }
{
    s.iter().all(|c| is_hex(*c))
}

// The byte of two hex digits.
fn pair(h: u8, l: u8) -> u8
    requires { (hex h ≡ true) × (hex l ≡ true) }
    ensures { result ≡ pair_of h l }
{
    hex_digit(h) * 16 + hex_digit(l)
}

// Sets the bytes of hex digits down where there is room for them.
fn write_pairs(s: &[u8], out: &mut [u8], at: usize) -> usize
    requires { (length s.now % 2 ≡ 0) × (all hex s.now ≡ true) × (at + length (pairs_of s.now) ≤ length out.old) }
    ensures { (result ≡ at + length (pairs_of s.now)) × (out.new ≡ splice at (pairs_of s.now) out.old) }
{
    let n = s.len() / 2;
    for i in 0..n {
        out[at + i] = pair(s[2 * i], s[2 * i + 1]);
    }
    at + n
}

// Sets down a part of hex digits alone.
fn plain(s: &[u8], out: &mut [u8], at: usize) -> Result<usize, BytesFault>
    requires { at ≤ length out.old }
    ensures { Adds (plain_of s.now) at out.old out.new result }
{
    if s.is_empty() || s.len() % 2 != 0 || !all_hex(s) {
        return Err(BytesFault::NotBytes);
    }
    if out.len() - at < s.len() / 2 {
        return Err(BytesFault::TooMany);
    }
    Ok(write_pairs(s, out, at))
}

// The next byte of a stretch: up, after fa and after ff 00; or the same.
pub fn follow(up: bool, b: u8) -> u8
    ensures { result ≡ then up b }
{
    if !up {
        return b;
    }
    match b {
        0xfa | 0xff => 0,
        _ => b + 1,
    }
}

// Sets a stretch down where there is room for it.
fn write_stretch(out: &mut [u8], at: usize, up: bool, b: u8, n: usize) -> usize
    requires { at + n ≤ length out.old }
    ensures { (result ≡ at + n) × (out.new ≡ splice at (stretch up b n) out.old) }
{
    let mut x = b;
    for i in 0..n {
        out[at + i] = x;
        x = follow(up, x);
    }
    at + n
}

// Sets down a part that is a stretch.
fn stretched(s: &[u8], out: &mut [u8], at: usize, up: bool) -> Result<usize, BytesFault>
    requires { at ≤ length out.old }
    ensures { Adds (stretch_of up s.now) at out.old out.new result }
{
    if s.len() <= 3 || !all_hex(&s[..2]) {
        return Err(BytesFault::NotBytes);
    }
    let n = digits(&s[3..])?;
    let room = out.len() - at;
    if (room as u64) < n {
        return Err(BytesFault::TooMany);
    }
    let b = pair(s[0], s[1]);
    Ok(write_stretch(out, at, up, b, n as usize))
}

// Sets down one part.
fn part(s: &[u8], out: &mut [u8], at: usize) -> Result<usize, BytesFault>
    requires { at ≤ length out.old }
    ensures { Adds (part_of s.now) at out.old out.new result }
{
    match s {
        [_, _, b'x', ..] => stretched(s, out, at, false),
        [_, _, b'~', ..] => stretched(s, out, at, true),
        _ => plain(s, out, at),
    }
}

// The bytes that a word spells, set down at the front of what is lent. Where a part is faulty or
// there is no room for it, those of the parts before it are set down.
pub fn bytes_of(text: &[u8], out: &mut [u8]) -> Result<usize, BytesFault>
    ensures { Fills (bytes_of (length out.old) text.now) out.old out.new result }
{
    if is(text, b"-") {
        return Ok(0);
    }
    let mut at = 0;
    for word in text.split(|c| *c == b'.') {
        at = part(word, out, at)?;
    }
    Ok(at)
}
