// Questions answered from bytes to printed lines.
#![tactic(auto)]

ghost use Rattle.assessment.specs.Questions.{QuestionLayout};

pub mod assess;
pub mod faults;
mod listing;
mod question;

// How a question is written: the law, on a contract.
pub fn question_layout()
    ensures { QuestionLayout }
{}
