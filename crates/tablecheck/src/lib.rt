// Refusals 1 to 16 of a table.
#![tactic(auto)]

ghost use Rattle.std.specs.Prelude.{◌≡◌};
ghost use Rattle.plans.specs.Refusals.{Verdict};
ghost use Rattle.gates.specs.LineRefusals.{line_refusal_number};
ghost use Rattle.tablecheck.specs.Answers.{table_refusal};
ghost use Rattle.tablecheck.specs.Inner.TextVerdict.{answered, lines_verdict, text_verdict};

mod names;

use crate::names::names_refusal;
use gatelines::refusal::line_refusal;
use gates::LineRefusal;
use heads::{head_good, head_line};
use plans::refusals::Numbered;
use text::lines::{ends_in_lf, find, line_from};

// Why a table is refused, with its line.
#[derive(Clone, Copy, Debug, PartialEq, Eq)]
pub enum Refusal {
    LongTable,
    OpenLine,
    BadHead,
    // 4 to 12
    BadLine { refusal: LineRefusal, line: usize },
    Crowded { line: usize },
    TwinName { line: usize },
    DeadReference { line: usize },
    Circle { line: usize },
    LongPlan,
    ShortSlice,
}

fn line_refusal_number(r: LineRefusal) -> u64
    ensures { result ≡ line_refusal_number r }
{
    match r {
        LineRefusal::UnknownKind => 4,
        LineRefusal::WrongShape => 5,
        LineRefusal::BadName => 6,
        LineRefusal::BadNumber => 7,
        LineRefusal::OffScale => 8,
        LineRefusal::BadDimension => 9,
        LineRefusal::CrossedBounds => 10,
        LineRefusal::BadMatrix => 11,
        LineRefusal::NoTiling => 12,
    }
}

impl Numbered for Refusal {
    ghost verdict = { table_refusal };

    fn number(self) -> u64 {
        match self {
            Refusal::LongTable => 1,
            Refusal::OpenLine => 2,
            Refusal::BadHead => 3,
            Refusal::BadLine { refusal, .. } => line_refusal_number(refusal),
            Refusal::Crowded { .. } => 13,
            Refusal::TwinName { .. } => 14,
            Refusal::DeadReference { .. } => 15,
            Refusal::Circle { .. } => 16,
            Refusal::LongPlan => 17,
            Refusal::ShortSlice => 18,
        }
    }

    fn place(self) -> u64 {
        match self {
            Refusal::LongTable | Refusal::OpenLine | Refusal::LongPlan | Refusal::ShortSlice => 0,
            Refusal::BadHead => 1,
            Refusal::BadLine { line, .. }
            | Refusal::Crowded { line }
            | Refusal::TwinName { line }
            | Refusal::DeadReference { line }
            | Refusal::Circle { line } => line as u64,
        }
    }
}

// The first of refusals 4 to 16 that applies to a text.
fn lines_refusal(text: &[u8]) -> Result<(), Refusal>
    ensures { (v : Verdict) → answered result v ≡ lines_verdict text.now v }
{
    let head = head_line(text);
    let mut at = find(text, 0, b'\n') + 1;
    let mut line = 2;
    while at < text.len() {
        if let Err(refusal) = line_refusal(head, line_from(text, at)) {
            return Err(Refusal::BadLine { refusal, line });
        }
        at = find(text, at, b'\n') + 1;
        line += 1;
    }
    names_refusal(text)
}

// The first of refusals 1 to 16 that applies to a text, if one does.
pub fn check_table(text: &[u8]) -> Result<(), Refusal>
    ensures { (v : Verdict) → answered result v ≡ text_verdict text.now v }
{
    if 32768 < text.len() {
        return Err(Refusal::LongTable);
    }
    if !ends_in_lf(text) {
        return Err(Refusal::OpenLine);
    }
    if !head_good(text) {
        return Err(Refusal::BadHead);
    }
    lines_refusal(text)
}
