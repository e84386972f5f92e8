// Marks of reactions, or of ports, in lent bytes: a byte or a bit each. What else knows of them asks these functions.
ghost use Rattle.std.specs.Prelude.{◌≡◌, ◌+◌, ◌≤◌, ◌<◌, length};
ghost use Rattle.schema.specs.Records.{count_below};
ghost use Rattle.rising.specs.Marks.{room, is_marked, set_mark};
ghost use Rattle.rising.specs.Walk.{cleared};

use schema::record::has_bit;

// How marks stand in their bytes: a byte for each, 1 or 0, or a bit for each, from the lowest of the first byte.
#[derive(Clone, Copy)]
pub enum Marks {
    Bytes,
    Bits,
}

impl Marks {
    // How many bytes the marks of n items need.
    pub fn room(self, n: u32) -> usize
        ensures { result ≡ room self n }
    {
        match self {
            Marks::Bytes => n as usize,
            Marks::Bits => (n as usize).div_ceil(8),
        }
    }

    // Whether item i is marked.
    pub fn is_marked(self, marks: &[u8], i: u32) -> bool
        requires { room self (i + 1) ≤ length marks.now }
        ensures { result ≡ is_marked self marks.now i }
    {
        match self {
            Marks::Bytes => marks[i as usize] != 0,
            Marks::Bits => has_bit(marks[i as usize / 8], i % 8),
        }
    }

    // Marks item i.
    pub fn mark(self, marks: &mut [u8], i: u32)
        requires { room self (i + 1) ≤ length marks.old }
        ensures { marks.new ≡ set_mark self marks.old i }
    {
        match self {
            Marks::Bytes => marks[i as usize] = 1,
            Marks::Bits => marks[i as usize / 8] |= 1 << (i % 8),
        }
    }

    // How many of the first n items are marked.
    #[tactic(auto, using(schema::proofs::Counts::count_laws))]
    pub fn count(self, marks: &[u8], n: u32) -> u32
        requires { room self n ≤ length marks.now }
        ensures { result ≡ count_below (is_marked self marks.now) n }
    {
        let mut found = 0;
        for i in 0..n {
            if self.is_marked(marks, i) {
                found += 1;
            }
        }
        found
    }
}

// Makes the first n bytes 0.
pub fn clear(bytes: &mut [u8], n: usize)
    requires { n ≤ length bytes.old }
    ensures { bytes.new ≡ cleared n bytes.old }
{
    bytes[..n].fill(0);
}
