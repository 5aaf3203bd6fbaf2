#![tactic(auto)]
// What the channel ends share: settings and how they are judged, the two stores that they ask for,
// a part of a store, where a piece goes, and the search of a table by id.
ghost use Rattle.std.specs.Prelude.{◌≡◌, ◌+◌, ◌≤◌, length, take, drop};
ghost use Rattle.channel.specs.Settings.{setup_number, settings_refusal, SettledGives, Good, stores_hold_of};
ghost use Rattle.channel.specs.Find.{held_at};
ghost use Rattle.channel.specs.Place.{place_for};

use words::{LANES, MAX_MEMORY, PIECES, Refusal, SLICE_SIZE, SLOTS};

// Most messages that a channel end holds at a time.
pub const ROWS: usize = SLOTS + LANES;

// Which of the two lent stores: that of the cells for small messages, or that of the lanes.
#[derive(Clone, Copy, Debug, PartialEq, Eq)]
pub enum Store {
    Small,
    Lanes,
}

// The lane of an open message, with what it is charged.
#[derive(Clone, Copy, Debug, PartialEq, Eq)]
pub struct Opened {
    pub lane: usize,
    pub charge: usize,
}

// The lane that a piece goes to; whether that one is new. No enum: whichever it is, a receiver goes on
// with the lane, and `SliceConstructor::start` takes the flag.
#[derive(Clone, Copy, Debug, PartialEq, Eq)]
pub struct SlicePlace {
    pub lane: usize,
    pub fresh: bool,
}

// How many small and sliced messages a channel end holds at a time, how many pieces a message may
// have, and how many bytes all may take.
#[derive(Clone, Copy, Debug, PartialEq, Eq)]
pub struct Settings {
    pub slots: usize,
    pub lanes: usize,
    pub pieces: usize,
    pub max_memory_usage_bytes: usize,
}

// Whether a channel end was set up, and the settings that it has. Both, since `SettledGives` promises
// the least settings where the ones that were asked for are refused.
#[derive(Clone, Copy, Debug, PartialEq, Eq)]
pub struct Settled {
    pub answer: Result<(), Refusal>,
    pub settings: Settings,
}

impl Settings {
    // Whether the settings are within their ranges.
    pub fn judge(self) -> Result<(), Refusal>
        ensures { setup_number result ≡ settings_refusal self }
    {
        if self.slots < 1 {
            return Err(Refusal::BadSettings);
        }
        if SLOTS < self.slots {
            return Err(Refusal::BadSettings);
        }
        if self.lanes < 1 {
            return Err(Refusal::BadSettings);
        }
        if LANES < self.lanes {
            return Err(Refusal::BadSettings);
        }
        if self.pieces < 1 {
            return Err(Refusal::BadSettings);
        }
        if PIECES < self.pieces {
            return Err(Refusal::BadSettings);
        }
        if MAX_MEMORY < self.max_memory_usage_bytes {
            return Err(Refusal::BadSettings);
        }
        Ok(())
    }

    // Judges the settings; the least ones stand for settings that are refused.
    pub fn settle(self) -> Settled
        ensures { SettledGives self result }
    {
        let answer = self.judge();
        match answer {
            Ok(()) => Settled {
                answer: Ok(()),
                settings: self,
            },
            Err(e) => {
                let least = Settings {
                    slots: 1,
                    lanes: 1,
                    pieces: 1,
                    max_memory_usage_bytes: 0,
                };
                Settled {
                    answer: Err(e),
                    settings: least,
                }
            }
        }
    }

    // Whether a store for small messages and one for lanes, of these lengths, are long enough.
    pub fn stores_hold(self, small: usize, lane: usize) -> bool
        requires { Good self }
        ensures { result ≡ stores_hold_of self small lane }
    {
        if small < self.slots * SLICE_SIZE {
            return false;
        }
        self.lanes * (self.pieces * SLICE_SIZE) <= lane
    }
}

// The part of a store at a place, so many bytes long.
pub fn part<'a>(store: &'a [u8], place: usize, len: usize) -> &'a [u8]
    requires { place + len ≤ length store.now }
    ensures { result.now ≡ take len (drop place store.now) }
{
    &store[place..place + len]
}

// The place of the first held entry with an id, or the length of the table.
pub fn find<'a>(held: &'a [bool], ids: &'a [u64], id: u64) -> usize
    requires { length held.now ≡ length ids.now }
    ensures { result ≡ held_at held.now ids.now id }
{
    for i in 0..held.len() {
        if held[i] && ids[i] == id {
            return i;
        }
    }
    held.len()
}

// The lane for a piece: its message's where that is open, else the free one.
pub fn lane_for(opened: Option<Opened>, free: usize) -> SlicePlace
    ensures { result ≡ place_for opened free }
{
    match opened {
        Some(o) => SlicePlace {
            lane: o.lane,
            fresh: false,
        },
        None => SlicePlace {
            lane: free,
            fresh: true,
        },
    }
}
