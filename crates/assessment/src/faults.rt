// Why a question is refused.
ghost use Rattle.std.specs.Prelude.{◌≡◌, codes};
ghost use Rattle.assessment.specs.declared.faults.LayerFault.TheVariants.{File, Draft, Docket, Question};
ghost use Rattle.assessment.specs.Faults.{question_number};

use fault::{Cause, Fault};
use file_check::faults::FileFault;
use verdict::faults::{DocketFault, DraftFault};

#[derive(Clone, Copy, PartialEq, Eq, Debug)]
pub enum QuestionCause {
    Length = 16,
    Print = 17,
}

impl Cause for QuestionCause {
    ghost word = { codes "question" };

    ghost numbered = { question_number };

    fn layer() -> &'static str {
        "question"
    }

    fn number(&self) -> u8 {
        *self as u8
    }
}

// A fault of any layer that a question reaches. Each has its own `From`: an enum of the causes alone would need one for each too.
#[derive(Clone, Copy, PartialEq, Eq, Debug)]
pub enum LayerFault {
    File(FileFault),
    Draft(DraftFault),
    Docket(DocketFault),
    Question(Fault<QuestionCause>),
}

// A fault, whole, beside the offset in the question where it arose.
#[derive(Clone, Copy, PartialEq, Eq, Debug)]
pub struct QuestionFault {
    pub offset: usize,
    pub fault: LayerFault,
}

impl QuestionFault {
    // The same fault at an offset.
    pub fn at(self, offset: usize) -> QuestionFault
        ensures { result ≡ record { offset = offset; fault = self.fault } }
    {
        QuestionFault { offset, ..self }
    }
}

impl From<FileFault> for QuestionFault {
    ghost from_gives = { λ f r. r ≡ record { offset = 0; fault = File f } };

    fn from(fault: FileFault) -> QuestionFault {
        QuestionFault {
            offset: 0,
            fault: LayerFault::File(fault),
        }
    }
}

impl From<DraftFault> for QuestionFault {
    ghost from_gives = { λ f r. r ≡ record { offset = 0; fault = Draft f } };

    fn from(fault: DraftFault) -> QuestionFault {
        QuestionFault {
            offset: 0,
            fault: LayerFault::Draft(fault),
        }
    }
}

impl From<DocketFault> for QuestionFault {
    ghost from_gives = { λ f r. r ≡ record { offset = 0; fault = Docket f } };

    fn from(fault: DocketFault) -> QuestionFault {
        QuestionFault {
            offset: 0,
            fault: LayerFault::Docket(fault),
        }
    }
}

impl From<Fault<QuestionCause>> for QuestionFault {
    ghost from_gives = { λ f r. r ≡ record { offset = 0; fault = Question f } };

    fn from(fault: Fault<QuestionCause>) -> QuestionFault {
        QuestionFault {
            offset: 0,
            fault: LayerFault::Question(fault),
        }
    }
}
