#![tactic(auto)]
// The sending end of a reliable channel. Messages wait, by rising id, until they are acknowledged; a
// round chooses what goes, packs it and writes the packets.
//
// A call takes a state and hands one back. What it does to the state it does in place, in a private
// method on `&mut self`, so that a refusal is a `?` and no further copy of the state.
ghost use Rattle.std.specs.Prelude.{◌≡◌, get_or, ◌≤◌, ◌<◌, ◌+◌, ◌-◌, length, ◌++◌, take};
ghost use Rattle.send_reliable.specs.Sender.{ROWS, last_sent_of, kind_of, as_row, no_row, no_piece, new_of, MadeGives, live, SentBy};
ghost use Rattle.channel.specs.Settings.{Good};
ghost use Rattle.send_reliable.specs.Queue.{spot_of, available_memory_of, can_send_of, QueueGives};
ghost use Rattle.send_reliable.specs.Ack.{closed, ack_small, ack_piece, AckGives};
ghost use Rattle.send_reliable.specs.QueueSteps.{place_of, Narrow, found_in, Waits};
ghost use Rattle.pack.specs.Rows.{verdict_of};
ghost use Rattle.pack.specs.Round.{ITEMS};
ghost use Rattle.send_reliable.specs.Select.{no_visit, up_from, row_visits, visits_from, due};
ghost use Rattle.send_reliable.specs.Round.{entry_number, RoundGives};
ghost use Rattle.send_reliable.specs.RoundSteps.{Ranged, goes, Selects, Within, size_row, VisitGives};

use channel::{ROWS, Settings};
use pack::{ITEMS, Item, Lent, Written};
use std::marker::Model;
use words::{
    After, LANES, LIMIT, MessageId, PIECES, Refusal, SLICE_SIZE, SLOTS, Sequence, SliceIndex,
};

// Pieces of all lanes; piece i of lane l is at l × PIECES + i.
const ALL_PIECES: usize = LANES * PIECES;

// When something was last sent, if it ever was: shared by small messages and pieces.
pub type Sending = Option<u64>;

// Where a waiting message lies: a small one's cell and sending; a sliced one's lane, how many of its
// pieces are acknowledged, and the piece after the last sent one.
#[derive(Clone, Copy)]
pub enum Kind {
    Small(usize, Sending),
    Sliced(usize, usize, usize),
}

// A waiting message. Its cell or lane is `place`; `acked` and `next` are a sliced one's, `sending` a
// small one's. A flag and plain numbers in place of a `Kind`, which was tried: queueing took 16 percent more
// instructions with it, and the ack of a small message 28.
#[derive(Clone, Copy)]
pub struct Row {
    id: MessageId,
    len: u32,
    sliced: bool,
    place: u8,
    acked: u8,
    next: u8,
    sending: Sending,
}

#[derive(Clone, Copy)]
pub struct Piece {
    acked: bool,
    sending: Sending,
}

// Rows past `count` are blank (a count beside a table, since all memory is fixed); the pieces of a lane
// are blank when a message takes it.
#[derive(Clone, Copy)]
pub struct SendChannelReliable {
    channel_id: u8,
    settings: Settings,
    resend_time: u64,
    next_reliable_message_id: u64,
    memory_usage_bytes: usize,
    // the latest time that a round was accepted at
    latest: u64,
    count: usize,
    rows: [Row; ROWS],
    cells: [bool; SLOTS],
    lanes: [bool; LANES],
    pieces: [Piece; ALL_PIECES],
}

// A contract sees its fields, of which `Valid` is always true.
impl Model for SendChannelReliable {
    ghost use Rattle.send_reliable.specs.State.{State};

    ghost Value = { State };

    ghost use Rattle.send_reliable.specs.Sender.{Valid};
    ghost use Rattle.send_reliable.specs.Fields.{state_of, fields_of};

    ghost view = { state_of };

    ghost invariant = { λ a. Valid (state_of a) };

    ghost inverse = { fields_of };
}

pub type Made = After<Result<(), Refusal>, SendChannelReliable>;

// The id of a message that was queued, or the refusal.
pub type Queued = After<Result<MessageId, Refusal>, SendChannelReliable>;

// What came of an acknowledgement; no message may be waiting under its id.
#[derive(Clone, Copy, Debug, PartialEq, Eq)]
pub enum Ack {
    Done,
    Unknown,
}

pub type Acked = After<Result<Ack, Refusal>, SendChannelReliable>;

pub type Round = After<Result<Written, Refusal>, SendChannelReliable>;

// Where a message that is queued goes.
#[derive(Clone, Copy)]
enum Place {
    Cell(usize),
    Lane(usize),
}

// A piece of a waiting message that a round looks at; a small message is one piece.
#[derive(Clone, Copy)]
pub struct Visit {
    row: usize,
    piece: usize,
}

// What choosing carries from visit to visit: what is left of the allowance, and how many items were
// chosen.
#[derive(Clone, Copy)]
struct Selection {
    left: u64,
    items: usize,
}

impl Row {
    fn new(id: MessageId, n: usize, kind: Kind) -> Row
        requires { Narrow n kind }
        ensures { result ≡ as_row id n kind }
    {
        let mut row = Row::blank();
        row.id = id;
        row.len = n as u32;
        match kind {
            Kind::Small(cell, sending) => {
                row.place = cell as u8;
                row.sending = sending;
            }
            Kind::Sliced(lane, acked, next) => {
                row.sliced = true;
                row.place = lane as u8;
                row.acked = acked as u8;
                row.next = next as u8;
            }
        }
        row
    }

    // Inlined, so that a table of it is filled at once, and not filled and then set entry by entry.
    #[inline(always)]
    fn blank() -> Row
        ensures { result ≡ no_row }
    {
        Row {
            id: MessageId(0),
            len: 0,
            sliced: false,
            place: 0,
            acked: 0,
            next: 0,
            sending: None,
        }
    }

    fn kind(self) -> Kind
        ensures { result ≡ kind_of self }
    {
        if self.sliced {
            return Kind::Sliced(self.place as usize, self.acked as usize, self.next as usize);
        }
        Kind::Small(self.place as usize, self.sending)
    }
}

impl Piece {
    // Inlined, as a blank row is.
    #[inline(always)]
    fn blank() -> Piece
        ensures { result ≡ no_piece }
    {
        Piece {
            acked: false,
            sending: None,
        }
    }
}

impl Visit {
    // Inlined, as a blank row is.
    #[inline(always)]
    fn blank() -> Visit
        ensures { result ≡ no_visit }
    {
        Visit { row: 0, piece: 0 }
    }
}

// The row of an id among the waiting, and its place.
fn find(rows: &[Row], id: MessageId) -> Option<(usize, Row)>
    ensures { result ≡ found_in rows.now id.0 }
{
    let k = rows.iter().position(|row| row.id == id)?;
    Some((k, rows[k]))
}

// Closes up the rows after k, which goes, puts a blank one after them, and answers how many there are
// then. (`rotate_left` would move each row twice.)
fn close(rows: &mut [Row], k: usize) -> usize
    requires { k < length rows.old }
    ensures { (rows.new ≡ closed rows.old k (length rows.old)) × (result ≡ length rows.old - 1) }
{
    let last = rows.len() - 1;
    rows.copy_within(k + 1.., k);
    rows[last] = Row::blank();
    last
}

impl SendChannelReliable {
    // Sets up a sender that nothing waits in. Where the settings are refused it has the least ones.
    pub fn new(channel_id: u8, settings: Settings, resend_time: u64) -> Made
        ensures { MadeGives channel_id settings resend_time result }
    {
        let settled = settings.settle();
        match settled.answer {
            Ok(()) => After {
                answer: Ok(()),
                state: SendChannelReliable::empty(channel_id, settled.settings, resend_time),
            },
            Err(e) => After {
                answer: Err(e),
                state: SendChannelReliable::empty(0, settled.settings, 0),
            },
        }
    }

    // Queues a message: its bytes go to the front of the lowest free cell, or lane if it is long.
    pub fn send_message(mut self, message: &[u8], small: &mut [u8], lanes: &mut [u8]) -> Queued
        ensures { QueueGives self message.now small.old lanes.old small.new lanes.new result }
    {
        let answer = self.queue(message, small, lanes);
        After {
            answer,
            state: self,
        }
    }

    // Takes the ack of a small message, which is then gone.
    pub fn process_message_ack(mut self, message_id: MessageId) -> Acked
        ensures { AckGives (ack_small self message_id.0) result }
    {
        let answer = self.take_message_ack(message_id);
        After {
            answer,
            state: self,
        }
    }

    // Takes the ack of a piece; the message is gone when all its pieces are acknowledged.
    pub fn process_slice_message_ack(
        mut self,
        message_id: MessageId,
        slice_index: SliceIndex,
    ) -> Acked
        ensures { AckGives (ack_piece self message_id.0 slice_index.0) result }
    {
        let answer = self.take_slice_ack(message_id, slice_index);
        After {
            answer,
            state: self,
        }
    }

    // How many bytes more may wait.
    pub fn available_memory(self) -> usize
        ensures { result ≡ available_memory_of self }
    {
        self.settings.max_memory_usage_bytes - self.memory_usage_bytes
    }

    // Whether a message of this size fits in the memory.
    pub fn can_send_message(self, size: usize) -> bool
        ensures { result ≡ can_send_of self size }
    {
        // not a sum, which a large size could make overflow
        size <= self.settings.max_memory_usage_bytes - self.memory_usage_bytes
    }

    // How many bytes wait.
    pub fn memory_usage_bytes(self) -> usize
        ensures { result ≡ self.memory_usage_bytes }
    {
        self.memory_usage_bytes
    }

    // A sender that nothing waits in.
    fn empty(channel_id: u8, settings: Settings, resend_time: u64) -> SendChannelReliable
        requires { Good settings }
        ensures { result ≡ new_of channel_id settings resend_time }
    {
        SendChannelReliable {
            channel_id,
            settings,
            resend_time,
            next_reliable_message_id: 0,
            memory_usage_bytes: 0,
            latest: 0,
            count: 0,
            rows: [Row::blank(); ROWS],
            cells: [false; SLOTS],
            lanes: [false; LANES],
            pieces: [Piece::blank(); ALL_PIECES],
        }
    }

    // Where a message of n bytes goes, with stores of these lengths: the lowest free cell or lane.
    fn find_place(&self, n: usize, small: usize, lanes: usize) -> Result<Place, Refusal>
        ensures { place_of result ≡ spot_of self.now n small lanes }
    {
        let settings = self.settings;
        if !settings.stores_hold(small, lanes) {
            return Err(Refusal::BadStore);
        }
        if LIMIT <= self.next_reliable_message_id {
            return Err(Refusal::BadNumber);
        }
        if settings.pieces * SLICE_SIZE < n {
            return Err(Refusal::TooLong);
        }
        if settings.max_memory_usage_bytes < self.memory_usage_bytes + n {
            return Err(Refusal::ReliableChannelMaxMemoryReached);
        }
        if n <= SLICE_SIZE {
            let cell = words::lowest_free(&self.cells, settings.slots);
            if cell < settings.slots {
                return Ok(Place::Cell(cell));
            }
            return Err(Refusal::TableFull);
        }
        let lane = words::lowest_free(&self.lanes, settings.lanes);
        if lane < settings.lanes {
            return Ok(Place::Lane(lane));
        }
        Err(Refusal::TableFull)
    }

    // `send_message`, in place.
    fn queue(
        &mut self,
        message: &[u8],
        small: &mut [u8],
        lanes: &mut [u8],
    ) -> Result<MessageId, Refusal>
        ensures { QueueGives self.old message.now small.old lanes.old small.new lanes.new (record { answer = result; state = self.new }) }
    {
        let n = message.len();
        let id = MessageId(self.next_reliable_message_id);
        let place = self.find_place(n, small.len(), lanes.len())?;
        let kind = match place {
            Place::Cell(i) => {
                words::write_bytes(small, i * SLICE_SIZE, message);
                self.cells[i] = true;
                Kind::Small(i, None)
            }
            Place::Lane(l) => {
                let size = self.settings.pieces * SLICE_SIZE;
                words::write_bytes(lanes, l * size, message);
                self.lanes[l] = true;
                let first = l * PIECES;
                self.pieces[first..first + pack::num_slices(n)].fill(Piece::blank());
                Kind::Sliced(l, 0, 0)
            }
        };
        self.rows[self.count] = Row::new(id, n, kind);
        self.count += 1;
        self.memory_usage_bytes += n;
        self.next_reliable_message_id += 1;
        Ok(id)
    }

    // The row that an ack names, and its place; none where no message waits under the id.
    fn waiting(&self, id: MessageId) -> Result<Option<(usize, Row)>, Refusal>
        ensures { Waits self.now id.0 result }
    {
        if LIMIT <= id.0 {
            return Err(Refusal::BadNumber);
        }
        Ok(find(&self.rows[..self.count], id))
    }

    // `process_message_ack`, in place.
    fn take_message_ack(&mut self, id: MessageId) -> Result<Ack, Refusal>
        ensures { AckGives (ack_small self.old id.0) (record { answer = result; state = self.new }) }
    {
        let found = self.waiting(id)?;
        let Some((k, row)) = found else {
            return Ok(Ack::Unknown);
        };
        let kind = row.kind();
        let Kind::Small(cell, _) = kind else {
            return Err(Refusal::WrongKind);
        };
        self.cells[cell] = false;
        self.memory_usage_bytes -= row.len as usize;
        self.count = close(&mut self.rows[..self.count], k);
        Ok(Ack::Done)
    }

    // `process_slice_message_ack`, in place.
    fn take_slice_ack(&mut self, id: MessageId, index: SliceIndex) -> Result<Ack, Refusal>
        ensures { AckGives (ack_piece self.old id.0 index.0) (record { answer = result; state = self.new }) }
    {
        let found = self.waiting(id)?;
        let Some((k, row)) = found else {
            return Ok(Ack::Unknown);
        };
        let kind = row.kind();
        let Kind::Sliced(lane, acked, next) = kind else {
            return Err(Refusal::WrongKind);
        };
        let len = row.len as usize;
        let num = pack::num_slices(len);
        if num as u64 <= index.0 {
            return Err(Refusal::BadIndex);
        }
        let at = lane * PIECES + index.0 as usize;
        if self.pieces[at].acked {
            return Ok(Ack::Done);
        }
        if acked + 1 == num {
            self.lanes[lane] = false;
            self.memory_usage_bytes -= len;
            self.count = close(&mut self.rows[..self.count], k);
            return Ok(Ack::Done);
        }
        self.pieces[at].acked = true;
        self.rows[k] = Row::new(row.id, len, Kind::Sliced(lane, acked + 1, next));
        Ok(Ack::Done)
    }
}

// ---- a round

// Writes visits to the pieces of a row from one to another, after the first n visits, and answers how
// many there are then.
fn write_range(visits: &mut [Visit], n: usize, row: usize, from: usize, to: usize) -> usize
    requires from_le_to { from ≤ to }
    requires from_in_bounds { n + (to - from) ≤ length visits.old }
    ensures { (result ≡ n + (to - from)) × (take result visits.new ≡ take n visits.old ++ up_from row from (to - from)) }
{
    let mut m = n;
    for piece in from..to {
        visits[m] = Visit { row, piece };
        m += 1;
    }
    m
}

// Writes the visits to row k: a small message is one piece; a sliced one starts at the piece after its
// last sent one and comes round to it.
fn write_row(visits: &mut [Visit], n: usize, k: usize, row: Row) -> usize
    requires ranged { Ranged row.len (kind_of row) }
    requires row_in_bounds { n + length (row_visits k row.len (kind_of row)) ≤ length visits.old }
    ensures { (result ≡ n + length (row_visits k row.len (kind_of row)))
        × (take result visits.new ≡ take n visits.old ++ row_visits k row.len (kind_of row)) }
{
    let kind = row.kind();
    match kind {
        Kind::Small(_, _) => write_range(visits, n, k, 0, 1),
        Kind::Sliced(_, _, next) => {
            let m = write_range(visits, n, k, next, pack::num_slices(row.len as usize));
            write_range(visits, m, k, 0, next)
        }
    }
}

// Whether what was last sent then is due again.
fn is_due(sending: Sending, current_time: u64, resend_time: u64) -> bool
    requires { SentBy current_time (last_sent_of sending) }
    ensures { result ≡ due resend_time current_time (last_sent_of sending) }
{
    match sending {
        None => true,
        Some(t) => resend_time <= current_time - t,
    }
}

// Whether what is left of the allowance covers what something needs, and it is due.
fn goes(need: usize, left: u64, sending: Sending, current_time: u64, resend_time: u64) -> bool
    requires { SentBy current_time (last_sent_of sending) }
    ensures { result ≡ goes resend_time current_time left need (last_sent_of sending) }
{
    need as u64 <= left && is_due(sending, current_time, resend_time)
}

impl SendChannelReliable {
    // Judges a round before anything is chosen: the stores, the sequence, the clock.
    fn judge_round(
        &self,
        sequence: Sequence,
        current_time: u64,
        small: usize,
        lanes: usize,
    ) -> Result<(), Refusal>
        ensures { verdict_of result ≡ entry_number self.now.settings self.now.latest sequence.0 current_time small lanes }
    {
        if !self.settings.stores_hold(small, lanes) {
            return Err(Refusal::BadStore);
        }
        if LIMIT <= sequence.0 {
            return Err(Refusal::BadNumber);
        }
        if current_time < self.latest {
            return Err(Refusal::ClockBack);
        }
        Ok(())
    }

    // Writes what a round looks at, in its order, and answers how many visits there are.
    fn write_visits(&self, visits: &mut [Visit]) -> usize
        requires in_bounds { ITEMS ≤ length visits.old }
        ensures { (result ≤ ITEMS) × (take result visits.new ≡ visits_from 0 (live self.now)) }
    {
        let mut n = 0;
        for k in 0..self.count {
            n = write_row(visits, n, k, self.rows[k]);
        }
        n
    }

    // Chooses what goes, in place, and answers how many items were chosen.
    fn select(
        &mut self,
        visits: &[Visit],
        current_time: u64,
        allowance: u64,
        items: &mut [Item],
    ) -> usize
        requires latest_le_current_time { self.old.latest ≤ current_time }
        requires visits_value { visits.now ≡ visits_from 0 (live self.old) }
        requires in_bounds { length visits.now ≤ length items.old }
        ensures { Selects self.old current_time allowance (length visits.now) items.new result self.new }
    {
        let mut chosen = Selection {
            left: allowance,
            items: 0,
        };
        // now, so that what goes was never sent after the latest time
        self.latest = current_time;
        for v in 0..visits.len() {
            chosen = self.visit(visits[v], chosen, items);
        }
        chosen.items
    }

    // Chooses what a visit at the latest time is to, if it goes: a small message if the allowance
    // covers it, a piece only if the allowance is at least SLICE_SIZE, whatever its own length.
    fn visit(&mut self, visit: Visit, mut chosen: Selection, items: &mut [Item]) -> Selection
        requires here { Within self.old.count (λ k. size_row (get_or self.old.rows k no_row)) visit }
        requires in_bounds { chosen.items < length items.old }
        ensures { VisitGives self.old.latest visit self.old chosen items.old self.new result items.new }
    {
        let current_time = self.latest;
        let resend_time = self.resend_time;
        let k = visit.row;
        let row = self.rows[k];
        let id = row.id;
        let len = row.len as usize;
        let left = chosen.left;
        let sending = Some(current_time);
        let kind = row.kind();
        match kind {
            Kind::Small(cell, last) => {
                if goes(len, left, last, current_time, resend_time) {
                    self.rows[k] = Row::new(id, len, Kind::Small(cell, sending));
                    items[chosen.items] = Item {
                        num: 0,
                        id,
                        index: SliceIndex(0),
                        place: cell * SLICE_SIZE,
                        len,
                    };
                    chosen.left -= len as u64;
                    chosen.items += 1;
                }
            }
            Kind::Sliced(lane, num_acked, _) => {
                let i = visit.piece;
                let j = lane * PIECES + i;
                let piece = self.pieces[j];
                let last = piece.sending;
                let size = pack::slice_len(len, i);
                if !piece.acked && goes(SLICE_SIZE, left, last, current_time, resend_time) {
                    self.rows[k] = Row::new(id, len, Kind::Sliced(lane, num_acked, i + 1));
                    self.pieces[j].sending = sending;
                    items[chosen.items] = Item {
                        num: pack::num_slices(len),
                        id,
                        index: SliceIndex(i as u64),
                        place: lane * (self.settings.pieces * SLICE_SIZE) + i * SLICE_SIZE,
                        len: size,
                    };
                    chosen.left -= size as u64;
                    chosen.items += 1;
                }
            }
        }
        chosen
    }

    // A round: chooses what goes with this allowance, packs it and writes the packets, the first with
    // this sequence. A refused round changes nothing.
    pub fn get_packets_to_send(
        self,
        sequence: Sequence,
        current_time: u64,
        allowance: u64,
        small: &[u8],
        lanes: &[u8],
        out: &mut [u8],
        table: &mut [u64],
    ) -> Round
        ensures { RoundGives self (record { seq = sequence.0; now = current_time; allowance = allowance; small = small.now; lanes = lanes.now })
            out.old table.old out.new table.new result }
    {
        let lent = Lent {
            ids: true,
            channel_id: self.channel_id,
            small,
            lanes,
        };
        let verdict = self.judge_round(sequence, current_time, small.len(), lanes.len());
        if let Err(e) = verdict {
            return After {
                answer: Err(e),
                state: self,
            };
        }
        let mut visits = [Visit::blank(); ITEMS];
        let n = self.write_visits(&mut visits);
        let mut items = [Item::blank(); ITEMS];
        let mut chosen = self;
        let m = chosen.select(&visits[..n], current_time, allowance, &mut items);
        let answer = pack::send(&lent, &items[..m], sequence, allowance, out, table);
        match answer {
            Err(_) => After {
                answer,
                state: self,
            },
            Ok(_) => After {
                answer,
                state: chosen,
            },
        }
    }
}
