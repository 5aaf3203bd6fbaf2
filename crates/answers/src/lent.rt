// What is alike at the channel ends: how much of their memory is lent, and their settings.
ghost use Rattle.std.specs.Prelude.{◌≡◌};
ghost use Rattle.answers.specs.Lent.{settings_at, whole_settings};

use channel::Settings;

// How many bytes of the two stores of a channel end are lent.
#[derive(Clone, Copy, Debug, PartialEq, Eq)]
pub struct Stores {
    pub small: usize,
    pub lanes: usize,
}

// The settings that four numbers give.
pub fn settings(numbers: &[u64], first: usize) -> Settings
    ensures { result ≡ settings_at numbers.now first }
{
    let second = page::after(first);
    let third = page::after(second);
    Settings {
        slots: page::size(numbers, first),
        lanes: page::size(numbers, second),
        pieces: page::size(numbers, third),
        max_memory_usage_bytes: page::size(numbers, page::after(third)),
    }
}

// The settings at first.
pub fn whole() -> Settings
    ensures { result ≡ whole_settings }
{
    Settings {
        slots: words::SLOTS,
        lanes: words::LANES,
        pieces: words::PIECES,
        max_memory_usage_bytes: words::MAX_MEMORY,
    }
}
