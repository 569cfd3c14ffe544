// Names as they are written.
ghost use Rattle.std.specs.Prelude.{◌≡◌, ◌≤◌, length};
ghost use Rattle.owl.specs.Naming.{is_thing, is_open};
ghost use Rattle.owl.specs.Mention.{name_by};
ghost use Rattle.owl_token.specs.Kind.{kind_number};
ghost use Rattle.owl_name.specs.Walk.{written, IsNamedBy, IsNamed};

use owl_token::Kind;

// A name with its bytes: a short one, or a full one with its `<` and `>`. Names are equal where they are written alike: a short one and a
// full one are two.
#[derive(Clone, Copy, PartialEq, Eq)]
pub enum Name<'a> {
    Short(&'a [u8]),
    Full(&'a [u8]),
}

impl<'a> Name<'a> {
    // The name that a token of this kind with these bytes is, if it is one.
    #[tactic(auto, unfolding(owl::specs::Grammar::is_name, owl::specs::Mention::name_by))]
    pub fn of(kind: Kind, bytes: &'a [u8]) -> Option<Name<'a>>
        ensures { IsNamedBy (kind_number kind) bytes.now result }
    {
        match kind {
            Kind::Short => Some(Name::Short(bytes)),
            Kind::Full => Some(Name::Full(bytes)),
            _ => None,
        }
    }

    // The name with these bytes, by the number of its kind: a short one for 13, for any other a full one.
    #[tactic(auto, unfolding(owl::specs::Mention::name_by))]
    pub fn by(kind: u8, bytes: &'a [u8]) -> Name<'a>
        ensures { written result ≡ name_by kind bytes.now }
    {
        match kind {
            13 => Name::Short(bytes),
            _ => Name::Full(bytes),
        }
    }

    pub fn is_thing(self) -> bool
        ensures { result ≡ is_thing (written self.entry) }
    {
        match self {
            Name::Short(bytes) => bytes == b"owl:Thing".as_slice(),
            Name::Full(_) => false,
        }
    }

    // Class names that begin with `:open-` are variables.
    pub fn is_open(self) -> bool
        ensures { result ≡ is_open (written self.entry) }
    {
        match self {
            Name::Short(bytes) => bytes.starts_with(b":open-"),
            Name::Full(_) => false,
        }
    }
}

// The name that the next token after a byte is, if it is one.
pub fn name_at(text: &[u8], at: usize) -> Option<Name<'_>>
    requires { at ≤ length text.now }
    ensures { IsNamed text.now at result }
{
    let token = owl_token::token_at(text, at);
    Name::of(token.kind, &text[token.place..token.end])
}
