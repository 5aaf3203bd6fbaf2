#![tactic(auto)]
// Ranges as words: a start and an end for each, as a script writes them.
ghost use Rattle.std.specs.Prelude.{◌≡◌};
ghost use Rattle.range_words.specs.Words.{table_of, set_down};

use packet_ack::{RANGES, Range};

// The words of a whole table.
pub const WORDS: usize = 2 * RANGES;

// The ranges that some words name, as far as a table goes.
pub fn from_words(words: &[u64]) -> [Range; RANGES]
    ensures { result ≡ table_of words.now }
{
    let mut t = [Range { start: 0, end: 0 }; RANGES];
    let n = RANGES.min(words.len() / 2);
    for i in 0..n {
        t[i] = Range {
            start: words[2 * i],
            end: words[2 * i + 1],
        };
    }
    t
}

// Sets down the first ranges of a table, as many as the words have room for.
pub fn to_words(words: &mut [u64], t: [Range; RANGES])
    ensures { words.new ≡ set_down t words.old }
{
    let n = RANGES.min(words.len() / 2);
    for i in 0..n {
        let r = t[i];
        words[2 * i] = r.start;
        words[2 * i + 1] = r.end;
    }
}
