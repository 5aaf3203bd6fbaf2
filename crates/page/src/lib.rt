#![tactic(auto)]
// A page of text that waits to be written: words, numbers and bytes are set down one after the other, and
// what stands there is written out when there is no room.
ghost use Rattle.std.specs.Prelude.{◌≡◌, List, [], ◌∷◌, ◌++◌, ◌+◌, ◌-◌, ◌^◌, ◌≤◌, ◌<◌, min, length, get_or, take, drop, eqb};
ghost use Rattle.words.specs.Choice.{pick};
ghost use Rattle.script.specs.Ascii.{ascii};
ghost use Rattle.say.specs.Spelled.{WIDEST, point_of, text_of};
ghost use Rattle.page.specs.Page.{DIGITS, REFUSAL, sheet, place_for, put, said, said_number, said_refusal, letter_said, next_number, lined, spelt};

use say::{Before, Part};
use words::Refusal;

// The standard output.
const STDOUT: i32 = 1;

// The most letters of a number.
const DIGITS: usize = 20;

// The most letters of a refusal.
const REFUSAL: usize = 40;

// So many elements of a buffer or a table, or all if it has fewer.
pub fn part<T>(n: usize, s: &[T]) -> usize
    ensures { (result ≡ min n (length s.now)) × (result ≤ length s.now) × (result ≡ length (take result s.now)) }
{
    n.min(s.len())
}

// The words of a table from a place on.
pub fn words_from(t: &[u64], from: usize) -> &[u64]
    ensures { result.now ≡ drop from t.now }
{
    &t[from.min(t.len())..]
}

// Writes out what stands on the page before a place. The next place is the front.
pub fn flush(page: &[u8], at: usize) -> usize
    ensures { result ≡ 0 }
{
    let n = part(at, page);
    io::write_all(STDOUT, &page[..n]);
    0
}

// A place with room for n letters: this one, or the front after what stands before it is written out.
fn room(page: &[u8], at: usize, n: usize) -> usize
    ensures { result ≡ place_for n (sheet page.now at) }
{
    if page.len() < at || page.len() - at < n {
        return flush(page, at);
    }
    at
}

// Says some words.
pub fn text(page: &mut [u8], at: usize, s: &[u8]) -> usize
    ensures { sheet page.new result ≡ said s.now (sheet page.old at) }
{
    let a = room(page, at, s.len());
    say::text(page, a, s)
}

// Says a number.
fn number(page: &mut [u8], at: usize, v: u64) -> usize
    ensures { sheet page.new result ≡ said_number v (sheet page.old at) }
{
    let a = room(page, at, DIGITS);
    say::number(page, a, v)
}

// Says a refusal, by number and name.
pub fn refusal(page: &mut [u8], at: usize, e: Refusal) -> usize
    ensures { sheet page.new result ≡ said_refusal e (sheet page.old at) }
{
    let a = text(page, at, b"refused ");
    let b = room(page, a, REFUSAL);
    say::refusal(page, b, e)
}

// The next place in a list.
pub fn after(i: usize) -> usize
    ensures { result ≡ min (i + 1) (2 ^ 64 - 1) }
{
    i.saturating_add(1)
}

// The word at a place of a table, or 0.
pub fn word(t: &[u64], i: usize) -> u64
    ensures { result ≡ get_or t.now i 0 }
{
    t.get(i).copied().unwrap_or(0)
}

// The same as a size.
pub fn size(t: &[u64], i: usize) -> usize
    ensures { result ≡ get_or t.now i 0 }
{
    word(t, i) as usize
}

// The place after a letter of a line, and which of its numbers is next.
#[derive(Clone, Copy)]
struct Next {
    at: usize,
    k: usize,
}

// Says a letter, or at a `#` the next number.
fn letter(page: &mut [u8], t: Next, c: u8, numbers: &[u64]) -> Next
    requires { t.k < 2 ^ 64 - 1 }
    ensures { (sheet page.new result.at ≡ letter_said c numbers.now t.k (sheet page.old t.at)) × (result.k ≡ next_number c t.k) × (result.k ≤ t.k + 1) }
{
    let k = t.k;
    if c == b'#' {
        let a = number(page, t.at, word(numbers, k));
        return Next { at: a, k: k + 1 };
    }
    let a = text(page, t.at, &[c]);
    Next { at: a, k }
}

// Says some words, with a number at each `#`.
pub fn line(page: &mut [u8], at: usize, s: &[u8], numbers: &[u64]) -> usize
    ensures { sheet page.new result ≡ lined s.now numbers.now (sheet page.old at) }
{
    let mut t = Next { at, k: 0 };
    for c in s {
        t = letter(page, t, *c, numbers);
    }
    t.at
}

// Says whether something holds.
pub fn yes(page: &mut [u8], at: usize, holds: bool) -> usize
    ensures { sheet page.new result ≡ said (pick holds (ascii "yes") (ascii "no")) (sheet page.old at) }
{
    let s: &[u8] = if holds { b"yes" } else { b"no" };
    text(page, at, s)
}

// Says bytes in the spelling of a script.
pub fn bytes(page: &mut [u8], at: usize, s: &[u8]) -> usize
    ensures { sheet page.new result ≡ spelt s.now (sheet page.old at) }
{
    if s.is_empty() {
        return text(page, at, b"-");
    }
    let mut a = at;
    let mut i = 0;
    let mut before = Before::Nothing;
    // a part is one byte or many, so no `for` steps as this does
    while i < s.len() {
        let p = say::next_part(s, i);
        a = spell(page, a, before, p);
        i = say::past_part(s, i, p);
        before = say::part_kind(p);
    }
    a
}

// A sum, or the most there is.
pub fn sum(a: usize, b: usize) -> usize
    ensures { result ≡ min (a + b) (2 ^ 64 - 1) }
{
    a.saturating_add(b)
}

// Says one part of bytes.
fn spell(page: &mut [u8], at: usize, before: Before, p: Part) -> usize
    ensures { sheet page.new result ≡ put WIDEST WIDEST (point_of before p ++ text_of p) (sheet page.old at) }
{
    let a = room(page, at, say::WIDEST);
    say::put_part(page, a, before, p)
}
