#![tactic(auto)]
// Words of an answer, set down one after the other on a page of lent bytes. What doesn't fit is left
// out whole, so a page never overruns.
ghost use Rattle.std.specs.Prelude.{◌≡◌, ℕ, ◌+◌, ◌≤◌, ◌<◌, min, max, ◌++◌, length, get_or, drop, map};
ghost use Rattle.say.specs.Say.{Says, decimal_of};
ghost use Rattle.say.specs.Refused.{refusal_of};
ghost use Rattle.say.specs.Spelled.{LEAST, WIDEST, runs, part_at, length_of, past_of, kind_of, byte_of, sign_of, text_of, point_of, Puts};
ghost use Rattle.say.specs.Digest.{MODULUS, mixed, digest_of};

use words::Refusal;

// Sets text down at a place, and answers the place after it.
pub fn text(page: &mut [u8], at: usize, s: &[u8]) -> usize
    ensures { Says page.old at s.now page.new result }
{
    if page.len() < at || page.len() - at < s.len() {
        return at;
    }
    words::write_bytes(page, at, s)
}

// Sets a number down in decimal.
pub fn number(page: &mut [u8], at: usize, v: u64) -> usize
    ensures { Says page.old at (decimal_of v) page.new result }
{
    let mut digits = [0u8; 20];
    let k = io::decimal(v, &mut digits);
    text(page, at, &digits[..k])
}

// A refusal in words: its number and its name. Texts and no Display: `Says` sets down all of a text or nothing,
// and a writer would stop in its middle.
#[tactic(auto, unfolding(crate::specs::Say::places))]
fn told(e: Refusal) -> &'static [u8]
    ensures { result.now ≡ refusal_of e }
{
    match e {
        Refusal::BufferTooShort => b"1 BufferTooShort",
        Refusal::InvalidNumSlices => b"2 InvalidNumSlices",
        Refusal::SliceSizeAboveLimit => b"3 SliceSizeAboveLimit",
        Refusal::EmptySlice => b"4 EmptySlice",
        Refusal::InvalidAckRange => b"5 InvalidAckRange",
        Refusal::InvalidPacketType => b"6 InvalidPacketType",
        Refusal::ReliableChannelMaxMemoryReached => b"7 ReliableChannelMaxMemoryReached",
        Refusal::InvalidSliceMessage => b"8 InvalidSliceMessage",
        Refusal::BadSettings => b"9 BadSettings",
        Refusal::BadStore => b"10 BadStore",
        Refusal::TableFull => b"11 TableFull",
        Refusal::TooLong => b"12 TooLong",
        Refusal::BadNumber => b"13 BadNumber",
        Refusal::ClockBack => b"14 ClockBack",
        Refusal::NoRoom => b"15 NoRoom",
        Refusal::WrongKind => b"16 WrongKind",
        Refusal::BadIndex => b"17 BadIndex",
    }
}

// Sets a refusal down.
pub fn refusal(page: &mut [u8], at: usize, e: Refusal) -> usize
    ensures { Says page.old at (refusal_of e) page.new result }
{
    text(page, at, told(e))
}

// A part of bytes as they are spelt: one byte, or a stretch, up or of the same, of so many from a byte
// on.
#[derive(Clone, Copy, Debug, PartialEq, Eq)]
pub enum Part {
    Byte(u8),
    Stretch(bool, u8, usize),
}

// What stands before a part: of three kinds, as `point_of` tells them apart.
#[derive(Clone, Copy, Debug, PartialEq, Eq)]
pub enum Before {
    Nothing,
    Bare,
    Drawn,
}

// Shorter stretches are spelt byte by byte.
const LEAST: usize = 8;

// The most letters of a part: a point, two hex digits, a sign and a number.
pub const WIDEST: usize = 24;

// Sets a byte down in hex.
pub fn byte(page: &mut [u8], at: usize, b: u8) -> usize
    ensures { Says page.old at (byte_of b) page.new result }
{
    let mut digits = [0u8; 16];
    let k = io::hex(u64::from(b), 2, &mut digits);
    text(page, at, &digits[..k])
}

// How many bytes from a place on go on as a stretch does, up or the same.
fn run(s: &[u8], from: usize, up: bool) -> usize
    requires { from < length s.now }
    ensures { result ≡ runs up (get_or s.now from 0) (drop from s.now) }
{
    let mut b = s[from];
    for i in from..s.len() {
        if s[i] != b {
            return i - from;
        }
        b = script::follow(up, b);
    }
    s.len() - from
}

// The part at a place.
pub fn next_part(s: &[u8], from: usize) -> Part
    ensures { result ≡ part_at (drop from s.now) }
{
    if s.len() <= from {
        return Part::Byte(0);
    }
    let b = s[from];
    let same = run(s, from, false);
    if LEAST <= same {
        return Part::Stretch(false, b, same);
    }
    let up = run(s, from, true);
    if LEAST <= up {
        return Part::Stretch(true, b, up);
    }
    Part::Byte(b)
}

// How many bytes a part has.
pub fn part_len(p: Part) -> usize
    ensures { result ≡ length_of p }
{
    match p {
        Part::Byte(_) => 1,
        Part::Stretch(_, _, n) => n,
    }
}

// The place after a part at a place: behind it, but not behind the end, and further on where there is
// more.
pub fn past_part(s: &[u8], from: usize, p: Part) -> usize
    ensures { (result ≡ past_of (length s.now) from (length_of p)) × (min (from + 1) (length s.now) ≤ result) × (result ≤ max from (length s.now)) }
{
    if s.len() <= from {
        return from;
    }
    let next = from.saturating_add(part_len(p).max(1));
    next.min(s.len())
}

// What a part is for the next one.
pub fn part_kind(p: Part) -> Before
    ensures { result ≡ kind_of p }
{
    match p {
        Part::Byte(_) => Before::Bare,
        Part::Stretch(_, _, _) => Before::Drawn,
    }
}

// The point before a part, if there is one.
#[tactic(auto, using(crate::proofs::Page::says_empty))]
fn put_point(page: &mut [u8], at: usize, w: Before, p: Part) -> usize
    ensures { Says page.old at (point_of w p) page.new result }
{
    match (w, p) {
        (Before::Nothing, _) | (Before::Bare, Part::Byte(_)) => at,
        (Before::Drawn, _) | (Before::Bare, Part::Stretch(..)) => text(page, at, b"."),
    }
}

// Sets down the sign of a stretch.
fn put_sign(page: &mut [u8], at: usize, up: bool) -> usize
    ensures { Says page.old at (sign_of up) page.new result }
{
    text(page, at, if up { b"~" } else { b"x" })
}

// Sets a part down behind another, where the page has room for the widest.
pub fn put_part(page: &mut [u8], at: usize, w: Before, p: Part) -> usize
    ensures { Puts page.old at (point_of w p ++ text_of p) page.new result }
{
    if page.len() < at || page.len() - at < WIDEST {
        return at;
    }
    let k = put_point(page, at, w, p);
    match p {
        Part::Byte(b) => byte(page, k, b),
        Part::Stretch(up, b, n) => {
            let i = byte(page, k, b);
            let j = put_sign(page, i, up);
            number(page, j, n as u64)
        }
    }
}

// The modulus of digests.
const MODULUS: u64 = (1 << 56) - 5;

// One value more in a digest.
fn mix(h: u64, v: u64) -> u64
    requires { h < MODULUS }
    ensures { (result ≡ mixed h v) × (result < MODULUS) }
{
    (251 * h + v % MODULUS) % MODULUS
}

// A digest of bytes or of words, in which each place counts.
fn digest<T: Copy + Into<u64>>(s: &[T]) -> u64
    ensures { (value : T → ℕ) → ((x : T) (v : ℕ) → T.converts x v → v ≡ value x) → result ≡ digest_of (map value s.now) }
{
    let mut h = 0;
    for x in s {
        h = mix(h, (*x).into());
    }
    h
}

// A digest of bytes. Two names, since at one type the promise needs no map from what is digested to numbers.
pub fn digest_bytes(s: &[u8]) -> u64
    ensures { result ≡ digest_of s.now }
{
    digest(s)
}

// The same of words.
pub fn digest_words(t: &[u64]) -> u64
    ensures { result ≡ digest_of t.now }
{
    digest(t)
}
