// The axioms of a text and the fillers that are no names, in the order of the text.
//
// Nothing is kept: an axiom is told by the byte where the items behind it begin.
#![tactic(auto)]

ghost use Rattle.std.specs.Prelude.{◌≡◌, ◌≤◌, ◌<◌, length};
ghost use Rattle.owl_name.specs.Walk.{does_number};
ghost use Rattle.owl_axiom.specs.Axioms.{FirstItem, BehindNames, WordSides, FindsAxiom};
ghost use Rattle.owl_axiom.specs.Fillers.{FindsFiller};

use owl_name::{Does, Walk};
use owl_token::Kind;

// What an axiom says of its sides.
#[derive(Clone, Copy, PartialEq, Eq)]
pub enum AxiomKind {
    SubClassOf,
    EquivalentClasses,
}

// An axiom: the bytes behind which its sides and the items behind it begin.
#[derive(Clone, Copy)]
pub struct Axiom {
    pub kind: AxiomKind,
    pub left: usize,
    pub right: usize,
    pub end: usize,
}

// The byte behind the names of the Ontology's head.
fn behind_names(s: &[u8], from: usize) -> usize
    requires { from ≤ length s.now }
    ensures { BehindNames s.now from result × (result ≤ length s.now) }
{
    let mut at = from;
    for stop in Walk::from(s, from, Does::Nothing) {
        if stop.name.is_none() {
            break;
        }
        at = stop.end;
    }
    at
}

// The byte behind which the items of a text begin.
pub fn first_item(s: &[u8]) -> usize
    ensures { FirstItem s.now result × (result ≤ length s.now) }
{
    let mut at = 0;
    // A turn passes a whole Prefix line, not one token.
    loop {
        let word = owl_token::token_at(s, at);
        if word.kind != Kind::Prefix {
            let open = owl_token::token_at(s, word.end);
            return behind_names(s, open.end);
        }
        at = owl_class::closed(s, word.end); // a Prefix line
    }
}

// The axiom whose brackets begin with the next token after a byte.
fn axiom_at(s: &[u8], kind: AxiomKind, at: usize) -> Axiom
    requires { at ≤ length s.now }
    ensures { (result.kind ≡ kind) × WordSides s.now at result.left result.right result.end × (at ≤ result.end) × (result.end ≤ length s.now) × (result.left ≤ length s.now) × (result.right ≤ length s.now) }
{
    let left = owl_token::token_at(s, at).end;
    let right = owl_class::class_end(s, left);
    let last = owl_class::class_end(s, right);
    let end = owl_token::token_at(s, last).end;
    Axiom {
        kind,
        left,
        right,
        end,
    }
}

// The first axiom of the items that begin with the next token after a byte.
pub fn next_axiom(s: &[u8], from: usize) -> Option<Axiom>
    requires { from ≤ length s.now }
    ensures { FindsAxiom s.now from result }
{
    let mut at = from;
    // A turn passes a whole Declaration, not one token.
    loop {
        let word = owl_token::token_at(s, at);
        match word.kind {
            Kind::SubClassOf => return Some(axiom_at(s, AxiomKind::SubClassOf, word.end)),
            Kind::EquivalentClasses => {
                return Some(axiom_at(s, AxiomKind::EquivalentClasses, word.end));
            }
            Kind::Declaration => at = owl_class::closed(s, word.end),
            _ => return None,
        }
    }
}

// The byte behind which the first filler that is no name begins, from a byte on; `does` is what the next name does.
pub fn next_filler(s: &[u8], from: usize, does: Does) -> Option<usize>
    requires { from ≤ length s.now }
    ensures { FindsFiller s.now from (does_number does) result }
{
    for stop in Walk::from(s, from, does) {
        if owl_row::own_here(s, &stop) {
            return Some(stop.end);
        }
    }
    None
}
