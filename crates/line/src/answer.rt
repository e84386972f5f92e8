// How a command ends, and the lines that several commands write.
use crate::image::{Image, Kind};
use crate::place;
use answers::Refusal;
use federate::FederateAccepted;
use line_check::FileError;
use std::io;
use std::io::Write;

// The answer is yes or a refusal, or there is none, which was said.
#[derive(Clone, Copy)]
pub(crate) enum Ended {
    Yes,
    Refused,
    NoAnswer,
}

impl Ended {
    // The exit status.
    pub(crate) fn status(self) -> u8 {
        match self {
            Ended::Yes => 0,
            Ended::Refused => 1,
            Ended::NoAnswer => 2,
        }
    }
}

// The image that a question is about, what it is of, and whether words are to say where a refusal finds its fault.
#[derive(Clone, Copy)]
pub(crate) struct About<'a> {
    pub(crate) image: Image<'a>,
    pub(crate) kind: Kind,
    pub(crate) explain: bool,
}

// Writes `refused` and the refusal's numbers.
pub(crate) fn write_refused<W: Write>(out: &mut W, refusal: Refusal) -> io::Result<Ended> {
    writeln!(out, "refused {refusal}")?;
    Ok(Ended::Refused)
}

// Writes why a file is not looked at.
pub(crate) fn write_no_answer<W: Write>(out: &mut W, error: FileError) -> io::Result<Ended> {
    writeln!(out, "{error}")?;
    Ok(Ended::NoAnswer)
}

// Writes `accepted`, the stations and the links of a line.
pub(crate) fn write_accepted<W: Write>(
    out: &mut W,
    accepted: FederateAccepted,
) -> io::Result<Ended> {
    let FederateAccepted { enclaves, links } = accepted;
    writeln!(out, "accepted {enclaves} {links}")?;
    Ok(Ended::Yes)
}

impl About<'_> {
    // Writes the words that say where the image has the fault, where they are asked for.
    pub(crate) fn write_place<W: Write>(&self, out: &mut W, refusal: Refusal) -> io::Result<()> {
        if self.explain {
            place::place(out, &self.image, self.kind, refusal.numbers().as_slice())?;
        }
        Ok(())
    }

    // Writes a refusal, and where it finds its fault.
    pub(crate) fn write_refused<W: Write>(
        &self,
        out: &mut W,
        refusal: Refusal,
    ) -> io::Result<Ended> {
        let ended = write_refused(out, refusal)?;
        self.write_place(out, refusal)?;
        Ok(ended)
    }
}
