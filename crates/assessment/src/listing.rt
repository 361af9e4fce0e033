// The lines that are printed of a docket, or of a fault.
ghost use Rattle.std.specs.Prelude.{◌≡◌, ◌<◌, [], ◌∷◌, map, if◌then◌else◌, nat_lt};
ghost use Rattle.std.specs.List.{flat_map};
ghost use Rattle.fault.specs.Texts.{fault_text};
ghost use Rattle.truth.specs.Dockets.{backed};
ghost use Rattle.verdict.specs.Verdicts.{verdict_of};
ghost use Rattle.holdings.specs.Views.{row_of};
ghost use Rattle.text.specs.Texts.{text_of, followed_by};
ghost use Rattle.assessment.specs.Faults.{told_fault, fault_line};
ghost use Rattle.assessment.specs.Listings.{spaced, line, share_line, lines_of};

use crate::faults::{LayerFault, QuestionFault};
use fault::{Cause, Fault};
use holdings::table::TableRow;
use text::Text;
use verdict::verdict::Verdict;

// A line of numbers, one or more, parted by single spaces.
fn push_line(text: &mut Text, first: u16, rest: &[u16])
    ensures { text_of text.new ≡ followed_by (text_of text.old) (line (spaced (first ∷ rest.now))) }
{
    text.push_decimal(u64::from(first));
    for number in rest {
        text.push_str(" ");
        text.push_decimal(u64::from(*number));
    }
    text.push_str("\n");
}

// A line for a row, if it has a share.
fn push_share(text: &mut Text, share: u16, weights: &[u16])
    ensures { text_of text.new ≡ (if nat_lt 0 share then followed_by (text_of text.old) (line (spaced (share ∷ weights.now))) else text_of text.old) }
{
    if share > 0 {
        push_line(text, share, weights);
    }
}

fn push_shares(text: &mut Text, shares: &[u16], rows: &[TableRow])
    ensures { text_of text.new ≡ followed_by (text_of text.old) (flat_map share_line (backed shares.now (map row_of rows.now))) }
{
    for (share, row) in shares.iter().zip(rows) {
        push_share(text, *share, row.weights.as_slice());
    }
}

fn push_weights(text: &mut Text, weights: &[u16])
    ensures { text_of text.new ≡ followed_by (text_of text.old) (line (spaced weights.now)) }
{
    match weights {
        [] => text.push_str("\n"),
        [first, rest @ ..] => push_line(text, *first, rest),
    }
}

// The verdict, and what it shows of the rows; bytes that find no room are left out.
pub(crate) fn list(verdict: Verdict, rows: &[TableRow]) -> Text
    ensures { text_of result ≡ followed_by [] (lines_of (verdict_of verdict) (map row_of rows.now)) }
{
    let mut text = Text::new();
    match verdict {
        Verdict::Open => text.push_str("open\n"),
        Verdict::Achieved { shares } => {
            text.push_str("achieved\n");
            push_shares(&mut text, shares.as_slice(), rows);
        }
        Verdict::Refuted {
            weights,
            ceiling,
            target_sum,
        } => {
            text.push_str("refuted\n");
            push_weights(&mut text, weights.as_slice());
            text.push_signed(ceiling);
            text.push_str(" ");
            text.push_signed(target_sum);
            text.push_str("\n");
        }
    }
    text
}

// As `Fault` is displayed, byte by byte: `write!` promises its text only where it answers `Ok`, and nothing says when.
fn push_fault<C: Cause + Drop>(text: &mut Text, fault: Fault<C>)
    ensures text { text_of text.new ≡ followed_by (text_of text.old) (fault_text C.Cause.word (C.Cause.numbered fault.cause) fault.place) }
    ensures number { C.Cause.numbered fault.cause < 256 }
{
    text.push_str(C::layer());
    text.push_str(" ");
    text.push_decimal(u64::from(fault.cause.number()));
    text.push_str(" ");
    text.push_decimal(fault.place as u64);
}

pub(crate) fn list_fault(fault: QuestionFault) -> Text
    ensures { text_of result ≡ fault_line (told_fault fault) }
{
    let mut text = Text::new();
    text.push_str("fault ");
    text.push_decimal(fault.offset as u64);
    text.push_str(" ");
    match fault.fault {
        LayerFault::File(fault) => push_fault(&mut text, fault),
        LayerFault::Draft(fault) => push_fault(&mut text, fault),
        LayerFault::Docket(fault) => push_fault(&mut text, fault),
        LayerFault::Question(fault) => push_fault(&mut text, fault),
    }
    text.push_str("\n");
    text
}
