// The lines of rules.
ghost use Rattle.std.specs.Prelude.{◌≡◌, ℕ, length};
ghost use Rattle.ltlf.specs.Contents.{draft_contents};
ghost use Rattle.sheet_text.specs.Lines.{left_by, lines_left, placed_read, section};
ghost use Rattle.sheet_text.specs.Rules.{rule_text, rule_read};

use super::lines::Lines;
use formula_text::read_formula;
use ltlf::Draft;

/// Reads a formula that is all of a text, and names it a rule.
fn rule_formula(draft: &mut Draft, text: &[u8]) -> Option<()>
    ensures { left_by result (draft_contents draft.new) ≡ rule_text (draft_contents draft.old) text.now }
{
    let formula = read_formula(draft, text)?.alone()?;
    draft.name_rule(formula).ok()
}

/// Reads the line of a rule.
fn rule(draft: &mut Draft, line: &[u8]) -> Option<()>
    ensures { left_by result (draft_contents draft.new) ≡ rule_read (draft_contents draft.old) line.now }
{
    match line {
        [b'r', b' ', rest @ ..] => rule_formula(draft, rest),
        _ => None,
    }
}

/// Reads the rules; the place of the first wrong line, if there is one.
pub(crate) fn read_rules(draft: &mut Draft, lines: Lines) -> Result<(), usize>
    ensures { section result (draft_contents draft.new) ≡ placed_read rule_read (lines_left lines.entry) (draft_contents draft.old) }
{
    for (place, line) in lines {
        rule(draft, line).ok_or(place)?;
    }
    Ok(())
}
