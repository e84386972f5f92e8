// A line image: what was read of its three files, in rooms that are lent.
ghost use Rattle.std.specs.Prelude.{◌≡◌, ◌≤◌, length, take};

// The most bytes that a file of a line image may have.
pub const LIMIT: usize = 65_536;

// Room for one more, by which a longer file is told.
pub const ROOM: usize = LIMIT + 1;

// A file that was read: so many bytes of it stand at the start of the room, and the file ends there.
// No `ArrayVec`: reading fills a slice that is there.
#[derive(Clone, Copy)]
pub struct File<'a> {
    pub room: &'a [u8],
    pub len: usize,
    ghost fits: { len ≤ 65536 },
    ghost inside: { len ≤ length room.now },
}

impl<'a> File<'a> {
    pub fn bytes(self) -> &'a [u8]
        ensures { result.now ≡ take self.entry.len self.entry.room.now }
    {
        &self.room[..self.len]
    }
}

#[derive(Clone, Copy)]
pub struct LineImage<'a> {
    pub pack: File<'a>,
    pub batch: File<'a>,
    pub house: File<'a>,
}
