#![tactic(auto)]
// Bytes in lent buffers: the integers of variable length of RFC 9000, section 16, two-byte counts,
// and bytes with their length before them.
//
// Readers answer for every input, at any place: a value and the place after it, or BufferTooShort
// where the input ends early. Of bytes they answer the place and the length. The writers whose names
// begin with `put` answer the place after what they wrote; they refuse for want of room or for a
// number that is too large, and then change nothing. Those that begin with `write` are for callers
// that have judged already.
ghost use Rattle.std.specs.Prelude.{◌≡◌, ◌+◌, ◌*◌, ◌^◌, ◌≤◌, ◌<◌, length};
ghost use Rattle.words.specs.Sizes.{LIMIT};
ghost use Rattle.words.specs.Lists.{splice};
ghost use Rattle.octets.specs.Reader.{num_of, byte, pair};
ghost use Rattle.octets.specs.Writer.{put_of, left};
ghost use Rattle.octets.specs.Steps.{quad_bytes, pair_at, quad_at};
ghost use Rattle.octets.specs.Varint.{var_len, var_bytes, pair_bytes, run_bytes, var, run, run_of, var_length, put_var, put_bytes, put_run};

use words::{LIMIT, Refusal};

// The length of the shortest form of a number that was judged to have one.
pub fn form_len(v: u64) -> usize
    ensures { (result ≡ var_len v) × (result ≤ 8) }
{
    if v < 64 {
        return 1;
    }
    if v < 16384 {
        return 2;
    }
    if v < 1073741824 {
        return 4;
    }
    8
}

// The length of the shortest form of a number.
pub fn varint_len(v: u64) -> Result<usize, Refusal>
    ensures { put_of result ≡ var_length v }
{
    if LIMIT <= v {
        return Err(Refusal::BadNumber);
    }
    Ok(form_len(v))
}

// The number of two bytes that are there, the higher first.
fn u16_at(s: &[u8], at: usize) -> u64
    requires { at + 2 ≤ length s.now }
    ensures { (result ≡ pair_at s.now at) × (result < 65536) }
{
    u64::from(u16::from_be_bytes([s[at], s[at + 1]]))
}

// The number of four bytes that are there, the highest first.
fn u32_at(s: &[u8], at: usize) -> u64
    requires { at + 4 ≤ length s.now }
    ensures { (result ≡ quad_at s.now at) × (result < 4294967296) }
{
    u64::from(u32::from_be_bytes([s[at], s[at + 1], s[at + 2], s[at + 3]]))
}

// The byte at a place.
pub fn get_u8(s: &[u8], at: usize) -> Result<(u64, usize), Refusal>
    ensures { num_of result ≡ byte s.now at }
{
    if s.len() <= at {
        return Err(Refusal::BufferTooShort);
    }
    Ok((u64::from(s[at]), at + 1))
}

// The number of two bytes at a place, the higher first.
pub fn get_u16(s: &[u8], at: usize) -> Result<(u64, usize), Refusal>
    ensures { num_of result ≡ pair s.now at }
{
    if s.len().saturating_sub(at) < 2 {
        return Err(Refusal::BufferTooShort);
    }
    Ok((u16_at(s, at), at + 2))
}

// The number at a place, in any of the four lengths. What is taken off is the tag, 1, 2 or 3, in the two
// highest bits.
pub fn get_varint(s: &[u8], at: usize) -> Result<(u64, usize), Refusal>
    ensures { num_of result ≡ var s.now at }
{
    if s.len() <= at {
        return Err(Refusal::BufferTooShort);
    }
    let room = s.len() - at;
    let b = s[at];
    if b < 64 {
        return Ok((u64::from(b), at + 1));
    }
    if room < 2 {
        return Err(Refusal::BufferTooShort);
    }
    if b < 128 {
        return Ok((u16_at(s, at) - 16384, at + 2));
    }
    if room < 4 {
        return Err(Refusal::BufferTooShort);
    }
    if b < 192 {
        return Ok((u32_at(s, at) - 2147483648, at + 4));
    }
    if room < 8 {
        return Err(Refusal::BufferTooShort);
    }
    let high = u32_at(s, at) - 3221225472;
    Ok((high * 4294967296 + u32_at(s, at + 4), at + 8))
}

// The bytes at a place that have their length before them.
pub fn get_bytes_with_varint_length(s: &[u8], at: usize) -> Result<(usize, usize), Refusal>
    ensures { run_of result ≡ run s.now at }
{
    let (n, b) = get_varint(s, at)?;
    let len = n as usize;
    if s.len() - b < len {
        return Err(Refusal::BufferTooShort);
    }
    Ok((b, len))
}

// Writes a two-byte count where there is room, and answers the place after it.
pub fn write_u16(out: &mut [u8], at: usize, v: u16) -> usize
    requires { at + 2 ≤ length out.old }
    ensures { (result ≡ at + 2) × (out.new ≡ splice at (pair_bytes v) out.old) }
{
    words::write_bytes(out, at, &v.to_be_bytes())
}

// Writes a number in four bytes where there is room, the highest first, and answers the place after it.
fn write_u32(out: &mut [u8], at: usize, v: u32) -> usize
    requires { at + 4 ≤ length out.old }
    ensures { (result ≡ at + 4) × (out.new ≡ splice at (quad_bytes v) out.old) }
{
    words::write_bytes(out, at, &v.to_be_bytes())
}

// Writes the shortest form of a number that was judged to fit, and answers the place after it.
// What is added is the tag, 1, 2 or 3, in the two highest bits.
pub fn write_varint(out: &mut [u8], at: usize, v: u64) -> usize
    requires v_bound { v < LIMIT }
    requires v_in_bounds { at + var_len v ≤ length out.old }
    ensures { (result ≡ at + var_len v) × (out.new ≡ splice at (var_bytes v) out.old) }
{
    if v < 64 {
        out[at] = v as u8;
        return at + 1;
    }
    if v < 16384 {
        return write_u16(out, at, (16384 + v) as u16);
    }
    if v < 1073741824 {
        return write_u32(out, at, (2147483648 + v) as u32);
    }
    let a = write_u32(out, at, (3221225472 + v / 4294967296) as u32);
    write_u32(out, a, (v % 4294967296) as u32)
}

// Writes bytes with their length before them, which were judged to fit, and answers the place after.
pub fn write_bytes_with_varint_length(out: &mut [u8], at: usize, src: &[u8]) -> usize
    requires src_len_bound { length src.now < LIMIT }
    requires src_in_bounds { at + (var_len (length src.now) + length src.now) ≤ length out.old }
    ensures { (result ≡ at + (var_len (length src.now) + length src.now))
        × (out.new ≡ splice at (run_bytes src.now) out.old) }
{
    let a = write_varint(out, at, src.len() as u64);
    words::write_bytes(out, a, src)
}

// Writes the shortest form of a number, or refuses.
pub fn put_varint(out: &mut [u8], at: usize, v: u64) -> Result<usize, Refusal>
    ensures { (put_of result ≡ put_var v at (length out.old))
        × (out.new ≡ left (put_of result) at (var_bytes v) out.old) }
{
    if LIMIT <= v {
        return Err(Refusal::BadNumber);
    }
    if out.len().saturating_sub(at) < form_len(v) {
        return Err(Refusal::BufferTooShort);
    }
    Ok(write_varint(out, at, v))
}

// Writes a two-byte count, or refuses.
pub fn put_u16(out: &mut [u8], at: usize, v: u16) -> Result<usize, Refusal>
    ensures { (put_of result ≡ put_bytes 2 at (length out.old))
        × (out.new ≡ left (put_of result) at (pair_bytes v) out.old) }
{
    if out.len().saturating_sub(at) < 2 {
        return Err(Refusal::BufferTooShort);
    }
    Ok(write_u16(out, at, v))
}

// Writes bytes with their length before them, or refuses.
pub fn put_bytes_with_varint_length(out: &mut [u8], at: usize, src: &[u8]) -> Result<usize, Refusal>
    ensures { (put_of result ≡ put_run (length src.now) at (length out.old))
        × (out.new ≡ left (put_of result) at (run_bytes src.now) out.old) }
{
    let n = src.len() as u64;
    if LIMIT <= n {
        return Err(Refusal::BadNumber);
    }
    let room = out.len().saturating_sub(at);
    let head = form_len(n);
    if room < head || room - head < src.len() {
        return Err(Refusal::BufferTooShort);
    }
    Ok(write_bytes_with_varint_length(out, at, src))
}
