// Class expressions in a text: where one ends, and its conjuncts.
//
// Constructs nest without bound; there is no recursion and no stack. A class expression is a name, or a word and what its brackets hold, so
// that its end is found by counting brackets.
#![tactic(auto)]

ghost use Rattle.std.specs.Prelude.{◌≡◌, ◌≤◌, ◌<◌, length};
ghost use Rattle.owl_token.specs.Kind.{kind_number};
ghost use Rattle.owl_class.specs.Ends.{rest_tokens, deeper, skip, Jumps, EndsAt, HasConjuncts};
ghost use Rattle.owl_class.specs.Conjuncts.{found_kind, found_byte, ConjunctIs, IsNamed, entry_kind, entry_index, EntryIs, NoneFrom};

mod spread;

use owl_name::{Does, Walk};
use owl_token::Kind;
pub use spread::Conjunct;
use spread::Conjuncts;

// How many brackets are open after a token. Here each bracket opens or closes; in `owl_text::deeper` it is the word before a bracket that opens.
#[tactic(auto, unfolding(crate::specs::Ends::deeper))]
fn deeper(kind: Kind, depth: usize) -> usize
    requires { depth < usize.MAX }
    ensures { result ≡ deeper (kind_number kind) depth }
{
    match kind {
        Kind::Open => depth + 1,
        Kind::Close => depth.saturating_sub(1),
        _ => depth,
    }
}

// Where the brackets that begin with the next token are closed.
pub fn closed(s: &[u8], from: usize) -> usize
    requires { from ≤ length s.now }
    ensures { (rest_tokens s.now result ≡ skip 0 (rest_tokens s.now from)) × (result ≤ length s.now) × Jumps s.now from result }
{
    let mut end = from;
    let mut depth = 0;
    for stop in Walk::from(s, from, Does::Nothing) {
        end = stop.end;
        depth = deeper(stop.kind, depth);
        if depth == 0 {
            break;
        }
    }
    end
}

// The byte behind the class expression that begins with the next token after a byte.
pub fn class_end(s: &[u8], at: usize) -> usize
    requires { at ≤ length s.now }
    ensures { EndsAt s.now at result × (result ≤ length s.now) × (at ≤ result) }
{
    let token = owl_token::token_at(s, at);
    match token.kind {
        Kind::Short | Kind::Full => token.end,
        _ => closed(s, token.end),
    }
}

// How many conjuncts the class expression has that begins with the next token after a byte.
pub fn conjuncts(s: &[u8], from: usize) -> usize
    requires { from ≤ length s.now }
    ensures { HasConjuncts s.now from result }
{
    Conjuncts::new(s, from).count()
}

// Conjunct i of the class expression that begins with the next token after a byte.
pub fn conjunct(s: &[u8], from: usize, i: usize) -> Option<Conjunct>
    requires { from ≤ length s.now }
    ensures is { ConjunctIs s.now from i (found_kind result) (found_byte result) }
    ensures named { IsNamed s.now result }
{
    Conjuncts::new(s, from).nth(i)
}

// An entry of a line with its number: a constant, an open name or a row.
#[derive(Clone, Copy, PartialEq, Eq)]
pub enum Entry {
    Constant(usize),
    Open(usize),
    Row(usize),
}

// The entry of conjunct i in a line.
pub fn entry_of(s: &[u8], from: usize, i: usize) -> Option<Entry>
    requires { from ≤ length s.now }
    ensures is { EntryIs s.now from i (entry_kind result) (entry_index result) }
    ensures none { NoneFrom s.now from i result }
{
    match conjunct(s, from, i)? {
        Conjunct::Restriction(at) => Some(Entry::Row(owl_row::row_number(s, at))),
        Conjunct::Name(at) => {
            let name = owl_name::name_at(s, at)?;
            let number = owl_name::class_number(s, name);
            if name.is_open() {
                Some(Entry::Open(number))
            } else {
                Some(Entry::Constant(number))
            }
        }
    }
}
