// A walk over the tokens of a text, which knows at each what a name there does.
ghost use Rattle.std.specs.Prelude.{◌≡◌, ◌-◌, ◌≤◌, length};
ghost use Rattle.std.specs.Iterator.{at_most};

use crate::names::Name;
use owl_token::Kind;

// What a name does where it stands.
#[derive(Clone, Copy, PartialEq, Eq)]
pub enum Does {
    Nothing,
    DeclaresClass,
    DeclaresProperty,
    UsesClass,
    UsesProperty,
    // What no name of a text does.
    Other,
}

// What a name does, by its number; one above 4, which no name of a text has, becomes `Other`.
impl From<u8> for Does {
    ghost use Rattle.std.specs.Prelude.{min};
    ghost use Rattle.owl_name.specs.Walk.{does_number};

    ghost from_gives = { λ n r. does_number r ≡ min n 5 };

    fn from(n: u8) -> Does {
        match n {
            0 => Does::Nothing,
            1 => Does::DeclaresClass,
            2 => Does::DeclaresProperty,
            3 => Does::UsesClass,
            4 => Does::UsesProperty,
            _ => Does::Other,
        }
    }
}

impl Does {
    ghost use Rattle.owl.specs.Mention.{sort_after};
    ghost use Rattle.owl_token.specs.Kind.{kind_number};
    ghost use Rattle.owl_name.specs.Walk.{does_number};

    // What the next name does after a token of this kind, where it would have done `self` before it.
    #[tactic(auto, unfolding(owl::specs::Mention::sort_after, owl::specs::Mention::word_sorts, owl::specs::Grammar::is_name))]
    pub fn after(self, kind: Kind) -> Does
        ensures { does_number result ≡ sort_after (does_number self) (kind_number kind) }
    {
        match kind {
            Kind::Prefix | Kind::Ontology | Kind::Declaration => Does::Nothing,
            Kind::Class => Does::DeclaresClass,
            Kind::ObjectProperty => Does::DeclaresProperty,
            Kind::SubClassOf | Kind::EquivalentClasses | Kind::ObjectIntersectionOf =>
                Does::UsesClass,
            Kind::ObjectSomeValuesFrom => Does::UsesProperty,
            // In a restriction the first name is the property, and behind it stands a class.
            Kind::Short | Kind::Full if self == Does::UsesProperty => Does::UsesClass,
            _ => self,
        }
    }
}

// A token of a text, the next one after the byte `at`, and its name, if it is one.
#[derive(Clone, Copy)]
pub struct Stop<'a> {
    pub at: usize,
    pub does: Does,
    pub kind: Kind,
    pub place: usize,
    pub end: usize,
    pub name: Option<Name<'a>>,
}

impl<'a> Stop<'a> {
    ghost use Rattle.owl_name.specs.Walk.{role_of};

    // The role of a restriction, if the token is one: a name that uses an object property.
    pub fn role(&self) -> Option<Name<'a>>
        ensures { result ≡ role_of self.now }
    {
        if self.does == Does::UsesProperty {
            self.name
        } else {
            None
        }
    }
}

// What is left of a text from the byte `at` on, where the next name does `does`.
#[derive(Clone, Copy)]
pub struct Walk<'a> {
    text: &'a [u8],
    at: usize,
    does: Does,
    ghost within: { at ≤ length text.now },
}

impl<'a> Walk<'a> {
    // All of a text.
    pub fn new(text: &'a [u8]) -> Walk<'a>
        ensures text { result.text.now ≡ text.now }
        ensures at { result.at ≡ 0 }
        ensures does { result.does ≡ Does.Nothing }
    {
        Walk {
            text,
            at: 0,
            does: Does::Nothing,
        }
    }

    // From a byte on, where the next name does this.
    pub fn from(text: &'a [u8], at: usize, does: Does) -> Walk<'a>
        requires { at ≤ length text.now }
        ensures text { result.text.now ≡ text.now }
        ensures at { result.at ≡ at }
        ensures does { result.does ≡ does }
    {
        Walk { text, at, does }
    }
}

impl<'a> Iterator for Walk<'a> {
    ghost use Rattle.owl_name.specs.Walk.{Goes};

    type Item = Stop<'a>;

    ghost next_gives = { Goes };

    ghost remaining = { λ w. at_most (length w.text.now - w.at) };

    fn next(&mut self) -> Option<Stop<'a>> {
        let token = owl_token::token_at(self.text, self.at);
        if token.kind == Kind::End {
            return None;
        }
        let stop = Stop {
            at: self.at,
            does: self.does,
            kind: token.kind,
            place: token.place,
            end: token.end,
            name: Name::of(token.kind, &self.text[token.place..token.end]),
        };
        self.at = token.end;
        self.does = self.does.after(token.kind);
        Some(stop)
    }
}
