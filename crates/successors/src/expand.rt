// The expansion, from the greatest open member down. Cells are lent, with how many are filled: memory is fixed.
ghost use Rattle.std.specs.Prelude.{◌≡◌, ◌<◌, ◌≤◌, length};
ghost use Rattle.viability.specs.Offers.{Inside};
ghost use Rattle.viability.specs.Visits.{moment_at, contents_at};
ghost use Rattle.successors.specs.Cells.{Taken, Filled};
ghost use Rattle.successors.specs.Handing.{Hands, ListsNext};
ghost use Rattle.successors.specs.Sights.{IsGuided, HandsAt, KeptAt, KeepsAt};

use super::guide::{Guide, fill, gathered, guide_at, top};
use super::label::NextLabel;
use super::sink::enter;
use super::table::{State, remember, seen};
use intern::Cell;
use viability::{Visit, inside, known_part, without};

/// What an expansion looks at: the visit, its viable formulas, and their guides.
#[derive(Clone, Copy)]
pub struct Sight<'a> {
    pub(crate) visit: Visit<'a>,
    pub(crate) able: u64,
    pub(crate) guides: &'a [Guide; 64],
}

/// Enters what is handed on from a state: the members that are still to be expanded, and the next label so far.
///
/// A member that can hand on only what the next label has is dropped; what a way hands on whatever is chosen goes into
/// the next label at once; a state that is done is passed over.
fn expand(
    sight: &Sight,
    members: u64,
    next: u64,
    cells: &mut [Cell<NextLabel>],
    filled: usize,
    table: &mut [Option<State>],
) -> Option<usize>
    requires guided { IsGuided sight.now }
    requires viable { Inside members sight.now.able }
    requires taken { Taken cells.old filled }
    requires kept { KeptAt sight.now table.old cells.old filled }
    ensures fills { Filled (HandsAt sight.now members next) cells.old cells.new filled result }
    ensures keeps { KeepsAt sight.now table.new cells.new result }
{
    if members == 0 {
        return enter(cells, filled, next);
    }
    let number = top(members);
    let rest = without(members, number);
    let guide = guide_at(sight.guides, number);
    if inside(guide.span.reach, next) {
        return expand(sight, rest, next, cells, filled, table);
    }
    let first = guide.ways.first;
    let Some(second) = guide.ways.second else {
        return expand(
            sight,
            rest | first.parts,
            next | first.handed,
            cells,
            filled,
            table,
        );
    };
    let state = State { members, next };
    if seen(table, number, state) {
        return Some(filled);
    }
    let by_first = next | first.handed | gathered(sight.guides, first.parts).must;
    let more = expand(sight, rest | first.parts, by_first, cells, filled, table)?;
    let by_second = next | second.handed | gathered(sight.guides, second.parts).must;
    let all = expand(sight, rest | second.parts, by_second, cells, more, table)?;
    remember(table, number, state);
    Some(all)
}

/// Expands with a table of `N` states.
fn expand_with<const N: usize>(
    sight: &Sight,
    members: u64,
    next: u64,
    cells: &mut [Cell<NextLabel>],
) -> Option<usize>
    requires guided { IsGuided sight.now }
    requires viable { Inside members sight.now.able }
    requires fits { N ≤ 4096 }
    ensures { Filled (HandsAt sight.now members next) cells.old cells.new 0 result }
{
    let mut table = [None; N];
    expand(sight, members, next, cells, 0, &mut table)
}

/// Enters into the cells, from the first on, every next label that a sound choice of the label hands on at the visit,
/// each once and no other; returns their number.
///
/// Formulas that the book does not have are passed over. None where the cells are full and another label is left.
pub fn next_labels(visit: &Visit, label: u64, cells: &mut [Cell<NextLabel>]) -> Option<usize>
    ensures { ListsNext (contents_at visit.now) visit.now.truth visit.now.last label cells.old cells.new result }
{
    let members = known_part(visit.book, label);
    if members == 0 {
        return enter(cells, 0, 0);
    }
    let able = visit.viable();
    if !inside(members, able) {
        return Some(0);
    }
    let mut guides = [Guide::NONE; 64];
    let forks = fill(visit, able, &mut guides);
    let given = gathered(&guides, members).must;
    let sight = Sight {
        visit: *visit,
        able,
        guides: &guides,
    };
    // Clearing a large table costs time, which few forks do not bring in again.
    if forks > 6 {
        return expand_with::<4096>(&sight, members, given, cells);
    }
    expand_with::<1>(&sight, members, given, cells)
}
