// The conjuncts of a class expression, one after another: intersections in it are spread out, and owl:Thing is dropped.
ghost use Rattle.std.specs.Prelude.{◌≡◌, ◌-◌, ◌≤◌, ◌<◌, length, Some};
ghost use Rattle.std.specs.Iterator.{at_most};

use owl_name::{Does, Stop, Walk};
use owl_token::Kind;

// A conjunct: the name, or the restriction whose role, is the next token after the byte.
#[derive(Clone, Copy, PartialEq, Eq)]
pub enum Conjunct {
    Name(usize),
    Restriction(usize),
}

// How many brackets are open in a class expression: those of its intersections, and those of one of its restrictions.
#[derive(Clone, Copy)]
pub struct Inside {
    pub outer: usize,
    pub inner: usize,
}

impl Inside {
    ghost use Rattle.owl.specs.Conjunct.{ends_here, outer_after, inner_after};
    ghost use Rattle.owl_token.specs.Kind.{kind_number};
    ghost use Rattle.owl_name.specs.Walk.{does_number};
    ghost use Rattle.owl_class.specs.Spread.{conjunct_by};

    // The conjunct that a token is, if it is one: a name that is not owl:Thing, in no restriction, or the role of a restriction that is in
    // no other.
    fn conjunct(self, stop: &Stop) -> Option<Conjunct>
        ensures { result ≡ conjunct_by self.inner stop.now }
    {
        let name = stop.name?;
        match stop.does {
            Does::UsesProperty if self.inner == 1 => Some(Conjunct::Restriction(stop.at)),
            Does::UsesProperty => None,
            _ if self.inner == 0 && !name.is_thing() => Some(Conjunct::Name(stop.at)),
            _ => None,
        }
    }

    // Whether the class expression ends with a token.
    #[tactic(auto, unfolding(owl::specs::Conjunct::ends_here, owl::specs::Grammar::is_name))]
    fn ends_here(self, does: Does, kind: Kind) -> bool
        ensures { result ≡ ends_here self.outer self.inner (does_number does) (kind_number kind) }
    {
        match kind {
            Kind::Short | Kind::Full => {
                does != Does::UsesProperty && self.inner == 0 && self.outer == 0
            }
            Kind::Close if self.inner == 0 => self.outer <= 1,
            Kind::Close => self.inner == 1 && self.outer == 0,
            _ => false,
        }
    }

    // The brackets that are open behind a token.
    #[tactic(auto, unfolding(owl::specs::Conjunct::outer_after, owl::specs::Conjunct::inner_after))]
    fn after(self, does: Does, kind: Kind) -> Inside
        requires outer { self.outer < usize.MAX }
        requires inner { self.inner < usize.MAX }
        ensures outer { result.outer ≡ outer_after self.outer self.inner (does_number does) (kind_number kind) }
        ensures inner { result.inner ≡ inner_after self.inner (does_number does) (kind_number kind) }
    {
        match kind {
            // The first bracket of a restriction stands before its role.
            Kind::Open if self.inner != 0 || does == Does::UsesProperty => Inside {
                inner: self.inner + 1,
                ..self
            },
            Kind::Open => Inside {
                outer: self.outer + 1,
                ..self
            },
            Kind::Close if self.inner != 0 => Inside {
                inner: self.inner - 1,
                ..self
            },
            Kind::Close => Inside {
                outer: self.outer.saturating_sub(1),
                ..self
            },
            _ => self,
        }
    }
}

// What is left of a class expression; it is inside of none once it has ended. No more brackets are open than bytes were read.
#[derive(Clone, Copy)]
pub struct Conjuncts<'a> {
    walk: Walk<'a>,
    inside: Option<Inside>,
    ghost few: { (i : _) → inside ≡ Some i → (i.outer ≤ walk.at) × (i.inner ≤ walk.at) },
}

impl<'a> Conjuncts<'a> {
    ghost use Rattle.owl_class.specs.Spread.{Starts};

    // Those of the class expression that begins with the next token after a byte.
    pub fn new(text: &'a [u8], from: usize) -> Conjuncts<'a>
        requires { from ≤ length text.now }
        ensures { Starts text.now from result }
    {
        Conjuncts {
            walk: Walk::from(text, from, Does::UsesClass),
            inside: Some(Inside { outer: 0, inner: 0 }),
        }
    }
}

impl Iterator for Conjuncts<'_> {
    ghost use Rattle.owl_class.specs.Spread.{Gives};

    type Item = Conjunct;

    ghost next_gives = { Gives };

    ghost remaining = { λ c. at_most (length c.walk.text.now - c.walk.at) };

    // Laid in where it is called: else what is left of the walk goes through memory for each conjunct.
    #[inline(always)]
    fn next(&mut self) -> Option<Conjunct> {
        while let Some(inside) = self.inside {
            let Some(stop) = self.walk.next() else {
                self.inside = None;
                return None;
            };
            let found = inside.conjunct(&stop);
            let ended = inside.ends_here(stop.does, stop.kind);
            self.inside = (!ended).then_some(inside.after(stop.does, stop.kind));
            if found.is_some() {
                return found;
            }
        }
        None
    }
}
