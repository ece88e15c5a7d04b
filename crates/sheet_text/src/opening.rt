// The lines before the rules: the heading, the variables, the atoms.
ghost use Rattle.std.specs.Prelude.{◌≡◌, ℕ, ◌+◌, [], ◌∷◌, length};
ghost use Rattle.sheet_text.specs.Lines.{lines_left, placed_read, section};
ghost use Rattle.sheet_text.specs.Opening.{opened, under, variable_line, atom_line, declaration_read, ended_at, whole_opening};

use super::filled::Filled;
use super::heading::Heading;
use super::lines::Lines;

/// How far the lines before the rules have come.
// A value and no type: one loop carries it from line to line.
#[derive(Clone, Copy, PartialEq, Eq, Drop)]
pub(crate) enum Stage {
    /// Before the heading.
    Start,
    /// After the heading.
    Headed,
    /// After a variable.
    Variables,
    /// After an atom.
    Atoms,
}

/// Adds the variable that a line declares.
fn variable<T: Filled>(stage: Stage, theory: &mut T, text: &[u8]) -> Option<Stage>
    ensures { opened result (T.held theory.new) ≡ variable_line stage (T.held theory.old) text.now }
{
    match stage {
        Stage::Headed => theory.begin(text)?,
        Stage::Variables => theory.put_variable(text)?,
        Stage::Start | Stage::Atoms => return None,
    }
    Some(Stage::Variables)
}

/// Adds the atom that a line declares.
fn atom<T: Filled>(stage: Stage, theory: &mut T, text: &[u8]) -> Option<Stage>
    ensures { opened result (T.held theory.new) ≡ atom_line stage (T.held theory.old) text.now }
{
    match stage {
        Stage::Variables | Stage::Atoms => theory.put_atom(text)?,
        Stage::Start | Stage::Headed => return None,
    }
    Some(Stage::Atoms)
}

/// Takes the heading of the theory, which stands first.
fn heading(theory: Heading, found: Option<Heading>, stage: Stage) -> Option<Stage>
    ensures { result ≡ under theory found stage }
{
    (found == Some(theory) && stage == Stage::Start).then_some(Stage::Headed)
}

/// Reads a line before the rules.
fn declaration<T: Filled>(stage: Stage, theory: &mut T, line: &[u8]) -> Option<Stage>
    ensures { opened result (T.held theory.new) ≡ declaration_read (stage, T.held theory.old) line.now }
{
    match line {
        [b'v', b' ', rest @ ..] => variable(stage, theory, rest),
        [b'a', b' ', rest @ ..] => atom(stage, theory, rest),
        _ => heading(theory.heading(), Heading::of(line), stage),
    }
}

/// Whether a variable was named before the lines end; else the end is the wrong place.
fn finish(stage: Stage, end: usize) -> Result<(), usize>
    ensures { result ≡ ended_at end stage }
{
    match stage {
        Stage::Variables | Stage::Atoms => Ok(()),
        Stage::Start | Stage::Headed => Err(end),
    }
}

/// Reads the lines before the rules; the place of the first wrong line, if there is one.
pub(crate) fn read_opening<T: Filled>(theory: &mut T, lines: Lines) -> Result<(), usize>
    ensures { section result (T.held theory.new) ≡ whole_opening (length lines.entry.text.now) (placed_read declaration_read (lines_left lines.entry) (Stage.Start, T.held theory.old)) }
{
    let end = lines.text.len();
    let mut stage = Stage::Start;
    for (place, line) in lines {
        stage = declaration(stage, theory, line).ok_or(place)?;
    }
    finish(stage, end)
}
