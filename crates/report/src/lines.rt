// The lines of a report but for those of its visits.
ghost use Rattle.std.specs.Prelude.{◌≡◌, length};
ghost use Rattle.report.specs.Lines.{line_answer, line_leaves, kept_text, stands_text, refused_text, verdict_text, rows_text, question_refused_text, noted_text, struck_text};

use super::line::write_line;
use super::verdict::Verdict;
use judge::Judgement;
use refusal::{Refusal, SheetRefusal};

/// Writes `kept N`.
///
/// Errors: 9 for fewer than 64 bytes, which stay as they were.
pub fn kept_line(out: &mut [u8], kept: u64) -> Result<usize, Refusal>
    ensures answer { result ≡ line_answer (length out.old) (kept_text kept) }
    ensures after { out.new ≡ line_leaves out.old (kept_text kept) }
{
    write_line(out, "kept", &[kept])
}

/// Writes `stands yes` or `stands no`, whether the kept visits meet the rules, or `stands none` where they were not judged.
///
/// Errors: 9 for fewer than 64 bytes, which stay as they were.
pub fn stands_line(out: &mut [u8], judged: Result<Judgement, Refusal>) -> Result<usize, Refusal>
    ensures answer { result ≡ line_answer (length out.old) (stands_text judged) }
    ensures after { out.new ≡ line_leaves out.old (stands_text judged) }
{
    match judged {
        Ok(Judgement::Met) => write_line(out, "stands yes", &[]),
        Ok(Judgement::Unmet) => write_line(out, "stands no", &[]),
        Err(_) => write_line(out, "stands none", &[]),
    }
}

/// Writes `refused NUMBER PLACE`.
///
/// Errors: 9 for fewer than 64 bytes, which stay as they were.
pub fn refused_line(out: &mut [u8], refusal: SheetRefusal) -> Result<usize, Refusal>
    ensures answer { result ≡ line_answer (length out.old) (refused_text refusal) }
    ensures after { out.new ≡ line_leaves out.old (refused_text refusal) }
{
    let number = u64::from(refusal.number());
    write_line(out, "refused", &[number, refusal.place() as u64])
}

/// Writes `verdict can L`, `verdict cannot` or `verdict short`.
///
/// Errors: 9 for fewer than 64 bytes, which stay as they were.
pub fn verdict_line(out: &mut [u8], verdict: Verdict) -> Result<usize, Refusal>
    ensures answer { result ≡ line_answer (length out.old) (verdict_text verdict) }
    ensures after { out.new ≡ line_leaves out.old (verdict_text verdict) }
{
    match verdict {
        Verdict::Can(length) => write_line(out, "verdict can", &[length]),
        Verdict::Cannot => write_line(out, "verdict cannot", &[]),
        Verdict::Short => write_line(out, "verdict short", &[]),
    }
}

/// Writes `rows R`.
///
/// Errors: 9 for fewer than 64 bytes, which stay as they were.
pub fn rows_line(out: &mut [u8], rows: u64) -> Result<usize, Refusal>
    ensures answer { result ≡ line_answer (length out.old) (rows_text rows) }
    ensures after { out.new ≡ line_leaves out.old (rows_text rows) }
{
    write_line(out, "rows", &[rows])
}

/// Writes `question refused N`.
///
/// Errors: 9 for fewer than 64 bytes, which stay as they were.
pub fn question_refused_line(out: &mut [u8], refusal: Refusal) -> Result<usize, Refusal>
    ensures answer { result ≡ line_answer (length out.old) (question_refused_text refusal) }
    ensures after { out.new ≡ line_leaves out.old (question_refused_text refusal) }
{
    write_line(out, "question refused", &[u64::from(refusal.number())])
}

// The two lines below differ in their words alone; one function for both would take four words to save two arms.

/// Writes `note accepted` or `note refused N`.
///
/// Errors: 9 for fewer than 64 bytes, which stay as they were.
pub fn noted_line(out: &mut [u8], noted: Result<(), Refusal>) -> Result<usize, Refusal>
    ensures answer { result ≡ line_answer (length out.old) (noted_text noted) }
    ensures after { out.new ≡ line_leaves out.old (noted_text noted) }
{
    match noted {
        Ok(()) => write_line(out, "note accepted", &[]),
        Err(refusal) => write_line(out, "note refused", &[u64::from(refusal.number())]),
    }
}

/// Writes `strike accepted` or `strike refused N`.
///
/// Errors: 9 for fewer than 64 bytes, which stay as they were.
pub fn struck_line(out: &mut [u8], struck: Result<(), Refusal>) -> Result<usize, Refusal>
    ensures answer { result ≡ line_answer (length out.old) (struck_text struck) }
    ensures after { out.new ≡ line_leaves out.old (struck_text struck) }
{
    match struck {
        Ok(()) => write_line(out, "strike accepted", &[]),
        Err(refusal) => write_line(out, "strike refused", &[u64::from(refusal.number())]),
    }
}
