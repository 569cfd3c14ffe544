// All lines of a text's table, in bytes.
//
// Constructs nest without bound; there is no recursion and no stack. The axioms are passed one after the other, then the fillers that are no
// names; the entries of a side are asked for one by one.
#![tactic(auto)]

ghost use Rattle.std.specs.Prelude.{◌≡◌, ◌≤◌, length};
ghost use Rattle.owl_axiom.specs.Axioms.{axiom_number};
ghost use Rattle.owl_line.specs.Sides.{SideIn};
ghost use Rattle.owl_make.specs.Lines.{opens_in, BothDone, AxiomDone, AxiomsDone, FillersDone, LinesDone};

use owl_axiom::{Axiom, AxiomKind};
use owl_line::{Passed, Side, Source};
use owl_name::Does;

// The lines of one side below another, and the reverse.
fn both_ways(
    source: Source<'_>,
    left: Side,
    right: Side,
    passed: Passed,
    out: &mut [u8],
) -> Option<Passed>
    requires left { SideIn source.text.now left }
    requires right { SideIn source.text.now right }
    ensures lines { BothDone source.entry.text.now source.entry.opens left right passed out.old result out.new }
    ensures room { length out.new ≡ length out.old }
{
    let first = owl_line::group(source, left, right, Some(passed), out)?;
    owl_line::group(source, right, left, Some(first), out)
}

// The lines of an axiom.
#[tactic(auto, using(crate::proofs::LinesLaws::axiom_one, crate::proofs::LinesLaws::axiom_both, crate::proofs::LinesLaws::both_over, crate::proofs::LinesLaws::both_put))]
fn one_axiom(source: Source<'_>, found: Axiom, passed: Passed, out: &mut [u8]) -> Option<Passed>
    requires left { found.left ≤ length source.text.now }
    requires right { found.right ≤ length source.text.now }
    ensures lines { AxiomDone source.entry.text.now source.entry.opens (axiom_number found.kind) found.left found.right passed out.old result out.new }
    ensures room { length out.new ≡ length out.old }
{
    let (left, right) = (Side::Class(found.left), Side::Class(found.right));
    match found.kind {
        AxiomKind::SubClassOf => owl_line::group(source, left, right, Some(passed), out),
        AxiomKind::EquivalentClasses => both_ways(source, left, right, passed, out),
    }
}

// No lines.
fn none() -> Passed
    ensures lines { result.lines ≡ 0 }
    ensures end { result.end ≡ 0 }
{
    Passed { lines: 0, end: 0 }
}

// The lines of all axioms.
fn axioms(source: Source<'_>, out: &mut [u8]) -> Option<Passed>
    ensures lines { AxiomsDone source.entry.text.now out.old result out.new }
    ensures room { length out.new ≡ length out.old }
{
    let mut passed = none();
    let mut at = owl_axiom::first_item(source.text);
    while let Some(found) = owl_axiom::next_axiom(source.text, at) {
        passed = one_axiom(source, found, passed, out)?;
        at = found.end;
    }
    Some(passed)
}

// The lines of all fresh variables and their fillers. The fillers are asked for one by one, as the axioms are: only here are they gone through.
fn fillers(source: Source<'_>, before: Passed, out: &mut [u8]) -> Option<Passed>
    requires { source.opens ≡ opens_in source.text.now }
    ensures lines { FillersDone source.entry.text.now before out.old result out.new }
    ensures room { length out.new ≡ length out.old }
{
    let mut passed = before;
    let mut at = owl_axiom::first_item(source.text);
    let mut does = Does::Nothing;
    let mut n = 0;
    while let Some(next) = owl_axiom::next_filler(source.text, at, does) {
        passed = both_ways(source, Side::Fresh(n), Side::Class(next), passed, out)?;
        does = Does::UsesClass;
        n += 1;
        at = next;
    }
    Some(passed)
}

// All lines of a text's table; none, where they are too many or too long.
pub fn lines(source: Source<'_>, out: &mut [u8]) -> Option<Passed>
    requires { source.opens ≡ opens_in source.text.now }
    ensures lines { LinesDone source.entry.text.now out.old result out.new }
    ensures room { length out.new ≡ length out.old }
{
    let first = axioms(source, out)?;
    fillers(source, first, out)
}
