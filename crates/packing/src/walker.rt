// A thin walker over the records of lent bytes.
ghost use Rattle.std.specs.Prelude.{◌≡◌, ◌-◌, ◌/◌, length};
ghost use Rattle.std.specs.Iterator.{at_most};
ghost use Rattle.packing.specs.Records.{Walks};

use schema::record::Record;

// The place is a number beside the bytes, and not a part cut shorter: records are shown by their numbers, and a run moves it on.
#[derive(Clone, Copy)]
pub struct RecordWalker<'a> {
    pub pack: &'a [u8],
    pub place: usize,
}

// Yields the record where the walker stands, and moves it on. It ends where fewer bytes than a record's are left.
impl<'a> Iterator for RecordWalker<'a> {
    type Item = Record<'a>;

    ghost next_gives = { Walks };

    ghost remaining = { λ w. at_most (length w.pack.now / 64 - w.place) };

    fn next(&mut self) -> Option<Record<'a>> {
        let record = Record::nth(self.pack, self.place)?;
        self.place += 1;
        Some(record)
    }
}

// The walker over those bytes at that place: any bytes, since the records of no pack are walked too.
pub fn walker_at<'a>(pack: &'a [u8], place: usize) -> RecordWalker<'a>
    ensures pack { result.pack ≡ pack.entry }
    ensures place { result.place ≡ place }
{
    RecordWalker { pack, place }
}
