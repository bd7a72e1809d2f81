//! An entry of the transcript.

ghost use Rattle.std.specs.Prelude.{◌≡◌};

use block_model::Text;
use std::marker::Model;

/// The answer to a line: its session, its number among the workers' lines, and its text. Contracts see it as an entry of the definition of transcripts.
#[derive(Debug, Drop)]
pub struct Said {
    session: u32,
    line: u32,
    text: Text,
}

impl Model for Said {
    ghost use Rattle.session_stepper.specs.EntryCode.{coded_said};
    ghost use Rattle.transcripts.specs.Transcript.{Said as Entry};

    ghost Value = { Entry };

    ghost coded = { coded_said };

    ghost view = { λ a. record { session = a.session; line = a.line; text = a.text } };
}

impl Said {
    ghost use Rattle.transcript_laws.specs.Schedule.{entry_of};

    /// The session's answer to the line of that number.
    pub(crate) fn new(session: u32, line: u32, text: Text) -> Said
        ensures { result ≡ entry_of session line text }
    {
        Said {
            session,
            line,
            text,
        }
    }

    /// Its session.
    pub fn session(&self) -> u32
        ensures { result ≡ self.now.session }
    {
        self.session
    }

    /// The number of its line.
    pub fn line(&self) -> u32
        ensures { result ≡ self.now.line }
    {
        self.line
    }

    /// Its text.
    pub fn text(&self) -> &[u8]
        ensures { result.now ≡ self.now.text }
    {
        self.text.as_slice()
    }
}
