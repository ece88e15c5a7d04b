// The three sections of a sheet, by the places that its trailer names.
ghost use Rattle.std.specs.Prelude.{◌≡◌, ℕ, length};
ghost use Rattle.ltlf.specs.Contents.{draft_contents, empty, counts_leave};
ghost use Rattle.sheet_text.specs.Held.{flags_in, numbers_in};
ghost use Rattle.sheet_text.specs.Sheets.{settled, sections_of};

use super::filled::Filled;
use super::heading::Sheet;
use super::lines::Lines;
use super::notes::read_notes;
use super::opening::read_opening;
use super::rules::read_rules;
use items::Trailer;
use ltlf::Draft;
use refusal::SheetRefusal;
use theory::Theory;

/// Empties the draft and sets its counts to those of the theory.
fn start<T: Theory>(draft: &mut Draft, theory: &T)
    ensures { draft_contents draft.new ≡ counts_leave (empty 0 0) (T.meaning theory.now).codes (T.meaning theory.now).atoms }
{
    *draft = Draft::new();
    let _ = draft.set_counts(theory.code_count(), theory.atom_count());
}

/// Reads the sections of a sheet that fills a theory, and whose trailer stands at `own`.
pub(crate) fn read_sections<T: Filled>(
    bytes: &[u8],
    own: usize,
    trailer: Trailer,
    draft: &mut Draft,
    theory: &mut T,
    visits: &mut [u16],
) -> Result<Sheet, SheetRefusal>
    ensures { settled result (draft_contents draft.new) (flags_in (T.held theory.new)) (numbers_in (T.held theory.new)) visits.new ≡ sections_of (T.held theory.old) bytes.now own trailer.rules trailer.notes visits.old }
{
    let opening = Lines::between(bytes, 0, trailer.rules);
    let rules = Lines::between(bytes, trailer.rules, trailer.notes);
    let notes = Lines::between(bytes, trailer.notes, own);
    read_opening(theory, opening).map_err(SheetRefusal::Opening)?;
    start(draft, theory);
    read_rules(draft, rules).map_err(SheetRefusal::Rule)?;
    let notes = read_notes(theory, notes, visits).map_err(SheetRefusal::Note)?;
    Ok(Sheet {
        heading: theory.heading(),
        notes,
    })
}
