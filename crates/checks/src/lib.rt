// The check of a drawn list of crossing numbers, over a sheet that marks the closed crossings.
// "accepts a drawn list exactly if it is a shortest drive from s to d"; otherwise "it tells the
// position of the first crossing at fault and why".
#![tactic(auto)]

ghost use Rattle.std.specs.Prelude.{◌≡◌};
ghost use Rattle.field.specs.Map.{On};
ghost use Rattle.field.specs.Checks.{Finds};
ghost use Rattle.field.specs.Workings.Sheet.{Marked};
ghost use Rattle.field.specs.Workings.Checking.{step_to, neighbour_of, step_of, check_from};
ghost use Rattle.checks.specs.Told.{step_told, finding_told};

use field::{Fault, Place, Reason, Size};
use sheets::{Sheet, number_of};

// A hop to the neighbour p, which is nearer d or is not.
#[tactic(auto, using(std::proofs::lemmas::Bool::Decides::nat_tests), unfolding(field::specs::Workings::Checking::step_to))]
fn step_to(nearer: bool, p: Place) -> Result<Place, Reason>
    ensures { step_told result ≡ step_to nearer p.x p.y }
{
    if nearer {
        Ok(p)
    } else {
        Err(Reason::NotNearer)
    }
}

// The hop from p to the crossing n, on the way to d. Nothing lies past the edge: the numbers one
// more and one less are neighbours only within the row.
#[tactic(auto, using(std::proofs::lemmas::Bool::Decides::nat_tests, field::specs::Limits::side_is), unfolding(field::specs::Workings::Checking::neighbour_of))]
fn neighbour(map: Size, d: Place, p: Place, n: u16) -> Result<Place, Reason>
    requires { On map.w map.h p.x p.y }
    ensures { step_told result ≡ neighbour_of map.w d.x d.y p.x p.y n }
{
    let here = number_of(map, p);
    let n = usize::from(n);
    if n == here + 1 && p.x + 1 < map.w {
        return step_to(p.x < d.x, Place { x: p.x + 1, y: p.y });
    }
    if n + 1 == here && 0 < p.x {
        return step_to(d.x < p.x, Place { x: p.x - 1, y: p.y });
    }
    if n == here + map.w {
        return step_to(p.y < d.y, Place { x: p.x, y: p.y + 1 });
    }
    if n + map.w == here {
        return step_to(d.y < p.y, Place { x: p.x, y: p.y - 1 });
    }
    Err(Reason::NotANeighbour)
}

// The number n after p, which is not d.
#[tactic(auto, using(std::proofs::lemmas::Bool::Decides::nat_tests), unfolding(field::specs::Workings::Checking::step_of))]
fn step(s: Sheet<'_>, d: Place, p: Place, n: u16) -> Result<Place, Reason>
    requires { On s.map.w s.map.h p.x p.y }
    ensures { step_told result ≡ step_of s.entry.cells.now s.entry.map.w s.entry.map.h d.x d.y p.x p.y n }
{
    let k = usize::from(n);
    if k >= s.cells.len() {
        return Err(Reason::OffTheMap);
    }
    if s.cells[k] > 0 {
        return Err(Reason::IsClosed);
    }
    neighbour(s.map, d, p, n)
}

// What is at fault, and where.
fn fault(reason: Reason, position: usize) -> Fault
    ensures { result ≡ record { reason = reason; position = position } }
{
    Fault { reason, position }
}

// The list after its first number, which was that of s. Each number is looked at once; p is the
// crossing before it.
#[tactic(auto, using(crate::proofs::Going::onward_after, crate::proofs::Going::onward_end, crate::proofs::Going::onward_short))]
fn rest(s: Sheet<'_>, from: Place, d: Place, drawn: &[u16]) -> Result<(), Fault>
    requires { On s.map.w s.map.h from.x from.y }
    ensures { finding_told result ≡ check_from s.entry.cells.now s.entry.map.w s.entry.map.h d.x d.y 1 from.x from.y drawn.now }
{
    let mut p = from;
    for (k, n) in drawn.iter().enumerate() {
        let position = k + 1;
        if p == d {
            return Err(fault(Reason::WentOn, position));
        }
        p = step(s, d, p, *n).map_err(|reason| fault(reason, position))?;
    }
    if p == d {
        return Ok(());
    }
    Err(fault(Reason::EndedEarly, drawn.len() + 1))
}

// What is found of the whole list. At position 0 only the start can be wrong, or closed.
pub fn check(s: Sheet<'_>, from: Place, to: Place, drawn: &[u16]) -> Result<(), Fault>
    requires { On s.map.w s.map.h from.x from.y }
    ensures { Finds s.entry.map.w s.entry.map.h (Marked s.entry.cells.now s.entry.map.w s.entry.map.h) from.x from.y to.x to.y drawn.now (finding_told result) }
{
    let Some((first, others)) = drawn.split_first() else {
        return Err(fault(Reason::EndedEarly, 0));
    };
    if usize::from(*first) != number_of(s.map, from) {
        return Err(fault(Reason::WrongStart, 0));
    }
    if s.at(from) > 0 {
        return Err(fault(Reason::IsClosed, 0));
    }
    rest(s, from, to, others)
}
