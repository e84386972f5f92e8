// The line that the program prints.
ghost use Rattle.std.specs.Prelude.{◌≡◌, ◌+◌, ◌≤◌, ◌++◌, length};
ghost use Rattle.arrayvec.specs.ArrayString.{array_string_len};
ghost use Rattle.federate.specs.Answer.{federate_numbers};
ghost use Rattle.line_check.specs.Line.{number_text, line, answer_line, profile_answer, file_line};

use crate::files::FileError;
use crate::image::LineImage;
use answers::Refusal;
use arrayvec::ArrayString;
use federate::FederateAccepted;
use federate::check::check_federate;
use itoa::Buffer;
use night::check_federate_night;

// Which check is asked for: the day's, or the stricter one of the night.
#[derive(Clone, Copy, Debug, PartialEq, Eq)]
pub enum Profile {
    Day,
    Night,
}

// Room for the longest line: a word of eight letters, eight numbers of twenty digits with a blank before each, and the line's end.
pub type Line = ArrayString<177>;

// Adds a blank and a number.
// Not `write!`: no contract says that what it writes has room.
#[tactic(auto, using(crate::proofs::Lines::few_digits))]
fn push_number(line: &mut Line, n: u64)
    requires { array_string_len line.old + 21 ≤ 177 }
    ensures bytes { line.new.bytes ≡ line.old.bytes ++ number_text n }
    ensures longer { array_string_len line.new ≤ array_string_len line.old + 21 }
{
    let mut digits = Buffer::new();
    line.push_str(" ");
    line.push_str(digits.format(n));
}

// A word, numbers with a blank before each, and the line's end.
#[tactic(auto, using(crate::proofs::Lines::line_ends))]
fn words_line(word: &str, numbers: &[u64]) -> Line
    requires short { length word.now ≤ 8 }
    requires few { length numbers.now ≤ 8 }
    ensures { result.bytes ≡ line word.now numbers.now }
{
    let mut line = Line::new();
    line.push_str(word);
    for n in numbers {
        push_number(&mut line, *n);
    }
    line.push_str("\n");
    line
}

// The line of an answer.
#[tactic(auto, using(crate::proofs::Lines::refused_line))]
fn answer_line(answer: Result<FederateAccepted, Refusal>) -> Line
    ensures { result.bytes ≡ answer_line (federate_numbers answer) }
{
    match answer {
        Ok(FederateAccepted { enclaves, links }) => {
            words_line("accepted", &[u64::from(enclaves), links])
        }
        Err(refusal) => words_line("refused", refusal.numbers().as_slice()),
    }
}

// The answer of the check that is asked for.
fn profile_answer(
    profile: Profile,
    pack: &[u8],
    batch: &[u8],
    house: &[u8],
) -> Result<FederateAccepted, Refusal>
    ensures { federate_numbers result ≡ profile_answer profile pack.now batch.now house.now }
{
    match profile {
        Profile::Day => check_federate(pack, batch, house),
        Profile::Night => check_federate_night(pack, batch, house),
    }
}

// The line for what was read.
pub fn file_line(profile: Profile, files: Result<LineImage, FileError>) -> Line
    ensures { result.bytes ≡ file_line profile files.entry }
{
    match files {
        Ok(image) => answer_line(profile_answer(
            profile,
            image.pack.bytes(),
            image.batch.bytes(),
            image.house.bytes(),
        )),
        Err(error) => words_line(error.text(), &[]),
    }
}
