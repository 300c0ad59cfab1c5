//! What a line of a trace asks for.
ghost use Rattle.std.specs.Prelude.{◌≡◌, ◌+◌, ◌-◌, ◌/◌, ◌<◌, ◌≤◌, ◌^◌, nat_lt};
ghost use Rattle.bc_model.specs.Pieces.{piece_in, piece_sectors};
ghost use Rattle.bc_job.specs.Asked.{line_of};

use bc_events::event::LineNumber;

/// How many sectors a piece has at most. Requests are cut at its multiples.
pub const PIECE: u64 = 256;

/// Neighbouring sectors that a request asks for, none of which is a cut but the first.
#[derive(Clone, Copy, Debug, PartialEq, Eq, Drop)]
pub struct Piece {
    pub first: u64,
    pub count: u32,
}

/// The request of a line.
#[derive(Clone, Copy, Debug, PartialEq, Eq, Drop)]
pub struct Job {
    /// The worker that serves the line, from 1 to 16.
    pub worker: u8,
    pub line: u32,
    /// The first data sector, which a flush leaves unused.
    pub first: u64,
    /// How many sectors, which a flush leaves unused.
    pub count: u32,
    /// How many data sectors the backing device has.
    pub size: u64,
    /// Whether a write is acknowledged only once it is durable. A read and a flush leave it unused.
    pub force: bool,
}

impl Job {
    /// The line.
    pub fn of(&self) -> LineNumber
        ensures { result ≡ line_of self.now }
    {
        LineNumber {
            worker: self.worker,
            line: self.line,
        }
    }

    /// Whether its last sector isn't below the size.
    pub fn is_outside(&self) -> bool
        requires { self.now.first + self.now.count < 2 ^ 64 }
        ensures { result ≡ nat_lt self.now.size (self.now.first + self.now.count) }
    {
        self.size < self.first + u64::from(self.count)
    }

    /// The number of its first piece, where pieces are counted from sector 0.
    pub fn first_piece(&self) -> u64
        ensures { result ≡ self.now.first / piece_sectors }
    {
        self.first / PIECE
    }

    /// The number behind that of its last piece.
    pub fn end_piece(&self) -> u64
        requires some { 1 ≤ self.now.count }
        requires range { self.now.first + self.now.count < 2 ^ 64 }
        ensures { result ≡ (self.now.first + self.now.count + (piece_sectors - 1)) / piece_sectors }
    {
        (self.first + u64::from(self.count) - 1) / PIECE + 1
    }

    /// Its piece of this number.
    pub fn piece(&self, number: u64) -> Piece
        requires some { 1 ≤ self.now.count }
        requires range { self.now.first + self.now.count < 2 ^ 64 }
        requires number { (self.now.first / piece_sectors ≤ number)
            × (number < (self.now.first + self.now.count + (piece_sectors - 1)) / piece_sectors) }
        ensures first { result.first ≡ (piece_in self.now.first self.now.count number).first }
        ensures count { result.count ≡ (piece_in self.now.first self.now.count number).count }
        ensures some { (1 ≤ result.count) × (self.now.first ≤ result.first)
            × (result.first + result.count ≤ self.now.first + self.now.count) }
    {
        let base = number * PIECE;
        let end = self.first + u64::from(self.count);
        let first = self.first.max(base);
        let end = base + (end - base).min(PIECE);
        Piece {
            first,
            count: (end - first) as u32,
        }
    }
}
