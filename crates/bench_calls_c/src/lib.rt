#![tactic(auto)]
// The calls of bench_calls as a static library, for a caller that isn't Rattle: bench/ links them. Each has the
// promise of the call that it makes.
ghost use Rattle.std.specs.Prelude.{length};
ghost use Rattle.bench_calls.specs.Packets.{sample_of, WriteGives, ReadGives};
ghost use Rattle.bench_calls.specs.Ends as ends;

use packet_ack::Range;

#[unsafe(no_mangle)]
pub extern "C" fn bench_write(
    out: &mut [u8],
    messages: &[u64],
    ranges: &[Range],
    store: &[u8],
    kind: u8,
    count: usize,
) -> usize
    ensures { WriteGives (sample_of kind count (length store.now)) messages.now ranges.now store.now out.old out.new result }
{
    bench_calls::bench_write(out, messages, ranges, store, kind, count)
}

#[unsafe(no_mangle)]
pub extern "C" fn bench_read(bytes: &[u8], messages: &mut [u64], ranges: &mut [Range]) -> usize
    ensures { ReadGives bytes.now messages.old ranges.old messages.new ranges.new result }
{
    bench_calls::bench_read(bytes, messages, ranges)
}

#[unsafe(no_mangle)]
pub extern "C" fn bench_sr_messages(
    count: usize,
    acks: usize,
    message: &[u8],
    small: &mut [u8],
    lanes: &mut [u8],
) -> usize
    ensures { ends.SrMessages count acks message.now small.old lanes.old small.new lanes.new result }
{
    bench_calls::bench_sr_messages(count, acks, message, small, lanes)
}

#[unsafe(no_mangle)]
pub extern "C" fn bench_sr_pieces(
    acks: usize,
    message: &[u8],
    small: &mut [u8],
    lanes: &mut [u8],
) -> usize
    ensures { ends.SrPieces acks message.now small.old lanes.old small.new lanes.new result }
{
    bench_calls::bench_sr_pieces(acks, message, small, lanes)
}

#[unsafe(no_mangle)]
pub extern "C" fn bench_sr_round(
    count: usize,
    rounds: usize,
    message: &[u8],
    small: &mut [u8],
    lanes: &mut [u8],
    out: &mut [u8],
    table: &mut [u64],
) -> usize
    ensures { ends.SrRounds count rounds message.now small.old lanes.old out.old table.old small.new lanes.new out.new table.new result }
{
    bench_calls::bench_sr_round(count, rounds, message, small, lanes, out, table)
}

#[unsafe(no_mangle)]
pub extern "C" fn bench_su_messages(
    count: usize,
    message: &[u8],
    small: &mut [u8],
    lanes: &mut [u8],
) -> usize
    ensures { ends.SuUsage count message.now small.old lanes.old small.new lanes.new result }
{
    bench_calls::bench_su_messages(count, message, small, lanes)
}

#[unsafe(no_mangle)]
pub extern "C" fn bench_su_round(
    count: usize,
    message: &[u8],
    small: &mut [u8],
    lanes: &mut [u8],
    out: &mut [u8],
    table: &mut [u64],
) -> usize
    ensures { ends.SuRound count message.now small.old lanes.old out.old table.old small.new lanes.new out.new table.new result }
{
    bench_calls::bench_su_round(count, message, small, lanes, out, table)
}

#[unsafe(no_mangle)]
pub extern "C" fn bench_rr_messages(
    count: usize,
    takes: usize,
    message: &[u8],
    small: &mut [u8],
    lanes: &[u8],
) -> usize
    ensures { ends.RrMessages count takes message.now small.old lanes.now small.new lanes.now result }
{
    bench_calls::bench_rr_messages(count, takes, message, small, lanes)
}

#[unsafe(no_mangle)]
pub extern "C" fn bench_rr_pieces(
    count: usize,
    takes: usize,
    payload: &[u8],
    small: &[u8],
    lanes: &mut [u8],
) -> usize
    ensures { ends.RrPieces count takes payload.now small.now lanes.old small.now lanes.new result }
{
    bench_calls::bench_rr_pieces(count, takes, payload, small, lanes)
}

#[unsafe(no_mangle)]
pub extern "C" fn bench_ru_messages(
    count: usize,
    takes: usize,
    message: &[u8],
    small: &mut [u8],
    lanes: &[u8],
) -> usize
    ensures { ends.RuMessages count takes message.now small.old lanes.now small.new lanes.now result }
{
    bench_calls::bench_ru_messages(count, takes, message, small, lanes)
}

#[unsafe(no_mangle)]
pub extern "C" fn bench_ru_pieces(
    count: usize,
    takes: usize,
    payload: &[u8],
    small: &[u8],
    lanes: &mut [u8],
) -> usize
    ensures { ends.RuPieces count takes payload.now small.now lanes.old small.now lanes.new result }
{
    bench_calls::bench_ru_pieces(count, takes, payload, small, lanes)
}
