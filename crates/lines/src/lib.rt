#![tactic(auto)]
// Lines of an input that may be endless, through a lent buffer. A line that with its newline does not
// fit the buffer is told as too long and passed over.
//
// `next` looks for a line among what was read, and `refill` reads more. Each does a bounded amount of
// work: a caller goes on until `End`.
ghost use Rattle.std.specs.Prelude.{◌≡◌, ◌-◌, ◌≤◌, length, take, drop};
ghost use Rattle.words.specs.Lists.{splice};
ghost use Rattle.lines.specs.Lines.{unread, line_to_of, last_of, unended_of, step_of, Refills};

use words::After;

// Where the input stands in the buffer: the bytes from a place to another are read and not told.
// `over`: they go on a line that is too long. `ended`: no more comes.
#[derive(Clone, Copy, Debug, PartialEq, Eq)]
pub struct Lines {
    from: usize,
    to: usize,
    over: bool,
    ended: bool,
}

// What is next: a line, by its place in the buffer and the place after it; a line that is too long;
// the end of the input; or more is to be read first.
#[derive(Clone, Copy, Debug, PartialEq, Eq)]
pub enum Line {
    At(usize, usize),
    TooLong,
    End,
    Unread,
}

// What is next, and where the input then stands.
pub type Step = After<Line, Lines>;

impl Lines {
    // Nothing is read yet.
    pub fn new() -> Self
        ensures { result ≡ unread }
    {
        Self {
            from: 0,
            to: 0,
            over: false,
            ended: false,
        }
    }

    // A line that ends at a place; the next begins at another.
    fn line_to(self, end: usize, next: usize) -> Step
        ensures { result ≡ line_to_of self end next }
    {
        let answer = if self.over {
            Line::TooLong
        } else {
            Line::At(self.from, end)
        };
        let state = Lines {
            from: next,
            over: false,
            ..self
        };
        Step { answer, state }
    }

    // The input has ended: the last line need have no newline.
    fn last(self) -> Step
        ensures { result ≡ last_of self }
    {
        if !self.over && self.from == self.to {
            return Step {
                answer: Line::End,
                state: self,
            };
        }
        self.line_to(self.to, self.to)
    }

    // No newline was read: a line that fills the buffer is too long, and its beginning is forgotten.
    fn unended(self, room: usize) -> Step
        requires { self.from ≤ self.to }
        ensures { result ≡ unended_of room self }
    {
        let state = if self.to - self.from < room {
            self
        } else {
            Lines {
                from: self.to,
                over: true,
                ..self
            }
        };
        Step {
            answer: Line::Unread,
            state,
        }
    }

    // The next line among what was read.
    pub fn next(self, buf: &[u8]) -> Step
        ensures { result ≡ step_of buf.now self }
    {
        let from = self.from;
        let to = self.to;
        if buf.len() < to || to < from {
            return Step {
                answer: Line::End,
                state: self,
            };
        }
        let end = script::line_end(&buf[..to], from);
        if end < to {
            return self.line_to(end, end + 1);
        }
        if self.ended {
            return self.last();
        }
        self.unended(buf.len())
    }

    // Reads more behind what was not told, which goes to the front of the buffer. Where nothing comes,
    // or reading fails before a byte came, the input has ended.
    pub fn refill(self, fd: i32, buf: &mut [u8]) -> Lines
        ensures { Refills buf.old self buf.new result }
    {
        let n = to_front(buf, self.from, self.to);
        let got = io::read_full(fd, &mut buf[n..]);
        Lines {
            from: 0,
            to: n + got,
            over: self.over,
            ended: got == 0,
        }
    }
}

// Moves the bytes from a place to another to the front, and answers how many they are.
fn to_front(buf: &mut [u8], from: usize, to: usize) -> usize
    ensures { (result ≡ length (take (to - from) (drop from buf.old))) × (result ≤ length buf.new) × (buf.new ≡ splice 0 (take (to - from) (drop from buf.old)) buf.old) }
{
    let end = buf.len().min(to);
    let start = from.min(end);
    buf.copy_within(start..end, 0);
    end - start
}
