// Whether a text is UTF-8, and whether it is a valid identity: plain ASCII at once, else by blocks and scalar by scalar.
ghost use Rattle.std.specs.Prelude.{◌≡◌, true, false, ◌+◌, ◌-◌, ◌<◌, ◌≤◌, length, IfSome, IfNone};
ghost use Rattle.identity.specs.Utf8.{utf8};
ghost use Rattle.identity.specs.Identity.{valid_id};
ghost use Rattle.identity.specs.Short.{short_ascii};
ghost use Rattle.identity.specs.Scan.{ascii, every, ascii_at, refused, Run, Stepped, rest_from};
ghost use Rattle.identity.specs.Window.{due, second, starts, fits, fits_at, quiet_at};

use crate::decode::{follows, unicode_control, unicode_whitespace, utf8_scalar};

// ASCII; a control only where `ANY` may stand.
fn ascii<const ANY: bool>(b: u8) -> bool
    ensures { result ≡ ascii ANY b }
{
    (b < 0x80) & (ANY | ((0x20 <= b) & (b <= 0x7E)))
}

// Whether every byte is such: no branch among them, so that many are tested at once. (`all` would stop at the first that is not.)
#[tactic(auto, using(crate::proofs::Steps::block_laws))]
fn all_ascii<const ANY: bool>(text: &[u8]) -> bool
    ensures { result ≡ every (ascii_at ANY text.now) 0 (length text.now) }
{
    let mut all = true;
    for b in text {
        all &= ascii::<ANY>(*b);
    }
    all
}

// Whether a text is 4 to 16 bytes of ASCII.
pub fn short_ascii(text: &[u8]) -> bool
    ensures { result ≡ short_ascii text.now }
{
    matches!(text.len(), 4..=16) && all_ascii::<true>(text)
}

// Whether a following byte is due after p, q and r, the nearest of them first.
fn due(p: u8, q: u8, r: u8) -> bool
    ensures { result ≡ due p q r }
{
    (0xC0 <= p) | ((0xE0 <= q) | (0xF0 <= r))
}

// Whether some scalar has b after p; a control only where `ANY` may stand.
fn second<const ANY: bool>(b: u8, p: u8) -> bool
    ensures { result ≡ second ANY b p }
{
    let free = ANY | !((p == 0xC2) & (b < 0xA0));
    let low = ((p == 0xE0) & (b < 0xA0)) | ((p == 0xF0) & (b < 0x90));
    let high = ((p == 0xED) & (0xA0 <= b)) | ((p == 0xF4) & (0x90 <= b));
    follows(b) & (free & !low & !high)
}

// Whether some scalar starts with b, in the same way.
fn starts<const ANY: bool>(b: u8) -> bool
    ensures { result ≡ starts ANY b }
{
    ascii::<ANY>(b) | ((0xC2 <= b) & (b <= 0xF4))
}

// Whether b fits the three bytes before it. No branch, so that 16 are tested at once.
fn fits<const ANY: bool>(b: u8, p: u8, q: u8, r: u8) -> bool
    ensures { result ≡ fits ANY b p q r }
{
    let due = due(p, q, r);
    (due & second::<ANY>(b, p)) | (!due & starts::<ANY>(b))
}

// A place in a text with three bytes before it.
#[derive(Clone, Copy)]
struct Inner<'a> {
    text: &'a [u8],
    at: usize,
    ghost after_three: { 3 ≤ at },
    ghost inside: { at ≤ length text.now },
}

impl<'a> Inner<'a> {
    // Whether each of the 16 bytes from `ahead` places on fits the three before it.
    #[tactic(auto, using(crate::proofs::Steps::block_laws))]
    fn fits_block<const ANY: bool>(self, ahead: usize) -> bool
        requires { self.at + ahead + 16 ≤ length self.text.now }
        ensures { result ≡ every (fits_at ANY self.entry.text.now) (self.entry.at + ahead) 16 }
    {
        let (text, at) = (self.text, self.at + ahead);
        let mut all = true;
        for k in 0..16 {
            let i = at + k;
            all &= fits::<ANY>(text[i], text[i - 1], text[i - 2], text[i - 3]);
        }
        all
    }

    // How many bytes fit the three before them, by blocks of 16, none of them the text's last.
    #[tactic(auto, using(crate::proofs::Steps::run_laws))]
    fn fits_blocks<const ANY: bool>(self) -> usize
        requires { self.at < length self.text.now }
        ensures { Run (fits_at ANY self.entry.text.now) self.entry.at result (length self.entry.text.now - 1) }
    {
        let rest = self.text.len() - self.at;
        // A block at a time, while all of it fits: by an index, since each place looks back three bytes, so that parts of 16 would not do; `find` over every
        // sixteenth place would need one more test for what is left after the last.
        let mut k = 0;
        while k + 16 < rest && self.fits_block::<ANY>(k) {
            k += 16;
        }
        k
    }

    // Whether no following byte is due `ahead` places on.
    fn quiet(self, ahead: usize) -> bool
        requires { self.at + ahead ≤ length self.text.now }
        ensures { result ≡ quiet_at self.entry.text.now (self.entry.at + ahead) }
    {
        let (text, at) = (self.text, self.at + ahead);
        !due(text[at - 1], text[at - 2], text[at - 3])
    }

    // How many of the next k bytes are whole scalars: the beginning of one at the end is left off, a byte at a time, three at most. `find` over the places back
    // from the end would have an answer for none, which there is not.
    #[tactic(auto, using(crate::proofs::Steps::not_there))]
    fn whole_scalars(self, k: usize) -> usize
        requires inside { self.at + k ≤ length self.text.now }
        requires starts { quiet_at self.text.now self.at ≡ true }
        ensures most { result ≤ k }
        ensures ends { quiet_at self.entry.text.now (self.entry.at + result) ≡ true }
    {
        let mut w = k;
        while !self.quiet(w) {
            w -= 1;
        }
        w
    }
}

// How many bytes from `at` on are scalars inside the text, by blocks, and no controls unless `ANY` may stand; none where the first block is not so.
#[tactic(auto, using(crate::proofs::Window::passed_rest))]
fn inner_scalars<const ANY: bool>(text: &[u8], at: usize) -> Option<usize>
    requires { at < length text.now }
    ensures { IfSome result (Stepped (rest_from ANY text.now) (length text.now) at) }
{
    if at < 3 || text.len() - at <= 16 {
        return None;
    }
    let inner = Inner { text, at };
    if !inner.quiet(0) {
        return None;
    }
    let many = inner.whole_scalars(inner.fits_blocks::<ANY>());
    (many != 0).then_some(many)
}

// Whether no identity has that scalar there: a control, or white space first or last.
fn refused(value: u32, edge: bool) -> bool
    ensures { result ≡ refused value edge }
{
    unicode_control(value) || (edge && unicode_whitespace(value))
}

// How many bytes from `at` on are scalars, in an identity such as may stand there unless `ANY` may: by blocks, or one scalar; none where there is no such
// scalar.
#[tactic(auto, using(crate::proofs::Walk::step_laws))]
fn step<const ANY: bool>(text: &[u8], at: usize) -> Option<usize>
    requires { at < length text.now }
    ensures none { IfNone result (rest_from ANY text.now at ≡ false) }
    ensures some { IfSome result (Stepped (rest_from ANY text.now) (length text.now) at) }
{
    if let Some(many) = inner_scalars::<ANY>(text, at) {
        return Some(many);
    }
    let scalar = utf8_scalar(text, at)?;
    let refused = refused(scalar.value, (at == 0) | (at + scalar.width == text.len()));
    if !ANY & refused {
        return None;
    }
    Some(scalar.width)
}

// Whether a text is UTF-8 where `ANY` scalar may stand, else whether it is a valid identity: step by step.
#[tactic(auto, using(crate::proofs::Walk::walk_laws))]
fn walk<const ANY: bool>(text: &[u8]) -> bool
    ensures { result ≡ rest_from ANY text.now 0 }
{
    // By an index, since a step is as wide as what it found, and looks back three bytes.
    let mut at = 0;
    while at < text.len() {
        let Some(width) = step::<ANY>(text, at) else {
            return false;
        };
        at += width;
    }
    ANY | (at != 0)
}

// Whether a text is UTF-8. This and `valid_id` are two functions over one walk: each first tries what most of its texts are, ASCII of any kind here, ASCII
// without controls and edge blanks there.
#[tactic(auto, using(crate::proofs::Utf8::utf8_ascii))]
pub fn is_utf8(text: &[u8]) -> bool
    ensures { result ≡ utf8 text.now }
{
    all_ascii::<true>(text) || walk::<true>(text)
}

// Whether a text is ASCII without controls and with no blank first or last, as most identities are.
#[tactic(auto, using(crate::proofs::Valid::id_plain))]
fn plain(text: &[u8]) -> bool
    ensures { result ≡ true → valid_id text.now ≡ true }
{
    let len = text.len();
    if len != 0 && text[0] != 0x20 && text[len - 1] != 0x20 {
        all_ascii::<false>(text)
    } else {
        false
    }
}

// Whether a text is a valid identity: UTF-8, not empty, no control, white space neither first nor last.
pub fn valid_id(text: &[u8]) -> bool
    ensures { result ≡ valid_id text.now }
{
    plain(text) || walk::<false>(text)
}
