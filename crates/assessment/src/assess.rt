// A question answered: the docket that it poses over the model of a file is settled, and its lines are printed.
ghost use Rattle.std.specs.Prelude.{◌≡◌, ◌≤◌, [], ◌∷◌, length, codes};
ghost use Rattle.std.specs.Result.{result_map_both};
ghost use Rattle.truth.specs.Calls.{settle, draft_refusal, added, after};
ghost use Rattle.truth.specs.Claims.{ShowsTrue};
ghost use Rattle.file_check.specs.Accepts.{read_table};
ghost use Rattle.holdings.specs.Views.{held};
ghost use Rattle.docket.specs.Settling.{settled_rows};
ghost use Rattle.text.specs.Texts.{text_of};
ghost use Rattle.assessment.specs.Questions.{asked};
ghost use Rattle.assessment.specs.Faults.{told_fault, told, unless, fault_line};
ghost use Rattle.assessment.specs.Listings.{listing};
ghost use Rattle.assessment.specs.Assess.{first_fault, from, question_docket, assess_fault, assessed, onto, if_none};
ghost use Rattle.assessment.specs.Steps.{length_fault, print_fault, pair_docket, pair_fault};

use crate::faults::{QuestionCause, QuestionFault};
use crate::listing::{list, list_fault};
use crate::question::read;
use docket::draft::Draft;
use fault::Cause;
use file_model::FileModel;
use mdp::Model;
use plans::{Objective, Row};
use text::{MAX_TEXT, Text};

const OBJECTIVE_SIZE: usize = 11;

// Offers an objective whose bytes stand at an offset of the question.
fn add<M: Model>(
    draft: &mut Draft<M>,
    objective: Objective,
    offset: usize,
) -> Result<(), QuestionFault>
    ensures answer { told result ≡ unless (from (codes "draft") offset (draft_refusal (M.Model.table draft.old.model).columns (held draft.old.objectives) objective)) tt }
    ensures after { held draft.new.objectives ≡ added (M.Model.table draft.old.model).columns (held draft.old.objectives) objective }
    ensures model { draft.new.model ≡ draft.old.model }
{
    draft
        .add(objective)
        .map(|_| ())
        .map_err(|fault| QuestionFault::from(fault).at(offset))
}

// The lines of the docket that two objectives pose over a model, once it is settled.
fn settle_pair<M: Model + Drop>(
    model: M,
    first: Objective,
    second: Objective,
    rows: &mut [Row],
) -> Result<Text, QuestionFault>
    ensures answer { result_map_both text_of told_fault result ≡ unless (pair_fault (M.Model.table model) first second (length rows.old)) (listing (after (M.Model.table model) (pair_docket (M.Model.table model) first second) (settle (length rows.old)))) }
    ensures rows { rows.new ≡ if_none (pair_fault (M.Model.table model) first second (length rows.old)) (settled_rows (M.Model.table model) (pair_docket (M.Model.table model) first second) rows.old) rows.old }
{
    let mut draft = Draft::over(model);
    add(&mut draft, first, 0)?;
    add(&mut draft, second, OBJECTIVE_SIZE)?;
    let mut docket = draft.pose();
    let verdict = docket.settle(rows)?;
    Ok(list(verdict, docket.rows()))
}

// Room for any text.
fn check_print(room: usize) -> Result<(), QuestionFault>
    ensures { told result ≡ unless (print_fault room) tt }
{
    if room < MAX_TEXT {
        return Err(QuestionFault::from(QuestionCause::Print.at(room)));
    }
    Ok(())
}

// The two objectives of a question, if it is whole and there is room to print.
fn check(question: &[u8], room: usize) -> Result<[Objective; 2], QuestionFault>
    ensures { told result ≡ unless (first_fault (length_fault question.now ∷ print_fault room ∷ [])) (asked question.now) }
{
    let objectives = read(question)?;
    check_print(room)?;
    Ok(objectives)
}

// Writes a text at the front of the print bytes and answers its length.
fn put(text: &Text, print: &mut [u8]) -> usize
    requires { 64 ≤ length print.old }
    ensures answer { result ≡ length (text_of text.now) }
    ensures print { print.new ≡ onto (text_of text.now) print.old }
{
    text.write_to(print).unwrap()
}

// Settles the docket of a question of two objectives over the model of a file, in working rows, and prints its verdict
// at the front of the print bytes. Answers how many bytes were printed.
pub fn assess(
    model: &[u8],
    question: &[u8],
    rows: &mut [Row],
    print: &mut [u8],
) -> Result<usize, QuestionFault>
    ensures answer { told result ≡ unless (assess_fault model.now question.now (length rows.old) (length print.old)) (length (listing (assessed model.now question.now (length rows.old)))) }
    ensures rows { rows.new ≡ if_none (assess_fault model.now question.now (length rows.old) (length print.old)) (settled_rows (read_table model.now) (question_docket model.now question.now) rows.old) rows.old }
    ensures print { print.new ≡ if_none (assess_fault model.now question.now (length rows.old) (length print.old)) (onto (listing (assessed model.now question.now (length rows.old))) print.old) print.old }
    ensures truth { ShowsTrue (read_table model.now) (assessed model.now question.now (length rows.old)) }
{
    let model = FileModel::read(model);
    if let Some(fault) = model.fault() {
        return Err(QuestionFault::from(fault));
    }
    let [first, second] = check(question, print.len())?;
    let text = settle_pair(model, first, second, rows)?;
    Ok(put(&text, print))
}

// Prints a fault's line at the front of the print bytes, and answers how many bytes were printed.
pub fn print_fault(fault: QuestionFault, print: &mut [u8]) -> Result<usize, QuestionFault>
    ensures answer { told result ≡ unless (print_fault (length print.old)) (length (fault_line (told_fault fault))) }
    ensures print { print.new ≡ if_none (print_fault (length print.old)) (onto (fault_line (told_fault fault)) print.old) print.old }
{
    check_print(print.len())?;
    Ok(put(&list_fault(fault), print))
}
