//! The sessions of a script.

use crate::answers::answer_line;
use crate::asking::ask_line;
use demo_script::{Answer, Answerer};
use disk_trait::Disk;
use script_run::{AnswerFault, Engine};
use session_core::Store;
use std::alloc::Global;

/// The store that the sessions of a script work on.
#[derive(Drop)]
pub struct Sessions<D: Disk + Drop> {
    pub alloc: Global,
    pub store: Store<D>,
}

impl<D: Disk + Drop> Engine for Sessions<D> {
    ghost use Rattle.brin_app.specs.SessionPlaces.{AnswersLine, StopsLine};

    ghost answers = { AnswersLine D.told };

    ghost stops = { StopsLine D.told };

    fn answer(&mut self, line: &[u8], out: &mut Vec<u8>) -> Result<(), AnswerFault> {
        answer_line(self, line, out)
    }
}

impl<D: Disk + Drop> Answerer for Sessions<D> {
    ghost use Rattle.brin_app.specs.Asking.{AsksLine};
    ghost use Rattle.brin_app.specs.SessionPlaces.{StopsLine};

    ghost answers = { AsksLine D.told };

    ghost stops = { StopsLine D.told };

    fn ask(&mut self, line: &[u8]) -> Result<Answer, AnswerFault> {
        ask_line(self, line)
    }
}
