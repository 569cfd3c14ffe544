// The names of a text: the first that is used and not declared, and the numbers of those that are declared.
//
// There is no array of names and no bound on their number: a name is sought among the declarations of the text itself, from the first byte
// on, and is found at its first declaration. So each answer reads the text once for each name that it asks about.
#![tactic(auto)]

ghost use Rattle.std.specs.Prelude.{◌≡◌, true, false, ◌&&◌, not, ◌<◌, ◌≤◌, length};
ghost use Rattle.owl.specs.Naming.{is_thing, role_number};
ghost use Rattle.owl.specs.Mention.{mentioned, names_in, is_known, undeclared};
ghost use Rattle.owl_name.specs.Walk.{written, does_number, passes};
ghost use Rattle.owl_name.specs.Declarations.{declares, declared_at, group_number, group_of, group_sort, group_takes, in_group, first_in, different, Reaches, UpTo, class_number, group_names};

mod names;
mod walks;

pub use names::{Name, name_at};
pub use walks::{Does, Stop, Walk};

// Whether a stop declares this name. Two names are compared and not two options: that takes half the time, and `declared_at` does little else.
fn declares(stop: &Stop, sort: Does, name: Name) -> bool
    ensures { result ≡ passes (declares (does_number sort) (written name.entry)) stop.now }
{
    match stop.name {
        Some(found) => stop.does == sort && found == name,
        None => false,
    }
}

// The byte of the first declaration of a name, as a class or as an object property; the text's length if there is none, as the definition says.
// The loop is no `find`: its invariant speaks of where the walk is.
pub fn declared_at(s: &[u8], sort: Does, name: Name) -> usize
    requires { 0 < does_number sort }
    ensures at { result ≡ declared_at s.now (does_number sort) (written name.entry) }
    ensures within { result ≤ length s.now }
{
    for stop in Walk::new(s) {
        if declares(&stop, sort, name) {
            return stop.place;
        }
    }
    s.len()
}

// Whether a name does no more than it may: the name that it uses is declared.
#[tactic(auto, unfolding(owl::specs::Mention::is_known))]
fn is_known(s: &[u8], does: Does, name: Name) -> bool
    ensures { result ≡ is_known (names_in s.now) (mentioned (does_number does) (written name.entry)) }
{
    match does {
        Does::UsesClass => name.is_thing() || declared_at(s, Does::DeclaresClass, name) < s.len(),
        Does::UsesProperty => declared_at(s, Does::DeclaresProperty, name) < s.len(),
        Does::Nothing | Does::DeclaresClass | Does::DeclaresProperty | Does::Other => true,
    }
}

// No `is_some_and`, here and in `is_first`: its closure would have to say again what the function ensures.
fn is_undeclared(s: &[u8], stop: &Stop) -> bool
    ensures { result ≡ passes (λ m. not (is_known (names_in s.now) m)) stop.now }
{
    match stop.name {
        Some(name) => !is_known(s, stop.does, name),
        None => false,
    }
}

// The byte of the first use of a name that is not declared; the text's length if there is none, as the definition says. The loop is no `find`:
// its invariant speaks of where the walk is.
pub fn first_undeclared(s: &[u8]) -> usize
    ensures { result ≡ undeclared s.now }
{
    for stop in Walk::new(s) {
        if is_undeclared(s, &stop) {
            return stop.place;
        }
    }
    s.len()
}

// The groups of declared names. owl:Thing is in none.
#[derive(Clone, Copy, PartialEq, Eq)]
pub enum Group {
    Constants,
    Opens,
    Roles,
}

// The group with a number; one above 2, which no group has, becomes the constants, as in the definitions.
impl From<u8> for Group {
    ghost from_gives = { λ n r. group_number r ≡ group_of n };

    #[tactic(auto, unfolding(crate::specs::Declarations::group_of))]
    fn from(n: u8) -> Group {
        match n {
            1 => Group::Opens,
            2 => Group::Roles,
            _ => Group::Constants,
        }
    }
}

impl Group {
    // What a declaration of a name of the group does.
    #[tactic(auto, unfolding(crate::specs::Declarations::group_sort))]
    fn sort(self) -> Does
        ensures { does_number result ≡ group_sort (group_number self) }
    {
        match self {
            Group::Constants | Group::Opens => Does::DeclaresClass,
            Group::Roles => Does::DeclaresProperty,
        }
    }

    // Whether a name that is declared so is one of the group.
    #[tactic(auto, unfolding(crate::specs::Declarations::group_takes))]
    fn takes(self, name: Name) -> bool
        ensures { result ≡ group_takes (group_number self) (written name.entry) }
    {
        match self {
            Group::Constants => !name.is_thing() && !name.is_open(), // owl:Thing has no number
            Group::Opens => name.is_open(),
            Group::Roles => true,
        }
    }

    // Whether a name that does this is a declaration of one of the group.
    #[tactic(auto, unfolding(crate::specs::Declarations::in_group))]
    fn has(self, does: Does, name: Name) -> bool
        ensures { result ≡ in_group (group_number self) (mentioned (does_number does) (written name.entry)) }
    {
        does == self.sort() && self.takes(name)
    }
}

// Whether a token is the first declaration of a name of the group.
pub fn is_first(s: &[u8], group: Group, stop: &Stop) -> bool
    ensures { result ≡ passes (first_in s.now (group_number group) stop.now.place) stop.now }
{
    match stop.name {
        Some(name) => {
            group.has(stop.does, name) && declared_at(s, stop.does, name) == stop.place
        }
        None => false,
    }
}

// How many different names of the group are declared before a byte. Where there are more than `most`, the count goes no further. The loop is no
// chain of `take_while`, `filter` and `count`: the walk ends by the place of a stop or by the count so far.
fn count_until(s: &[u8], group: Group, limit: usize, most: usize) -> usize
    ensures { Reaches s.now (group_number group) limit most result }
{
    let mut count = 0;
    for stop in Walk::new(s) {
        if limit <= stop.place || most < count {
            break;
        }
        count += usize::from(is_first(s, group, &stop));
    }
    count
}

// How many different names of the group are declared before a byte. No text has `usize::MAX` names, so that the count is whole.
fn different(s: &[u8], group: Group, limit: usize) -> usize
    ensures { result ≡ different s.now (group_number group) limit }
{
    count_until(s, group, limit, usize::MAX)
}

// How many different names of the group are declared. Where there are more than `most`, the count goes no further.
pub fn up_to(s: &[u8], group: Group, most: usize) -> usize
    ensures { UpTo s.now (group_number group) most result }
{
    count_until(s, group, s.len(), most)
}

// The number of a class name: how many names of its group are declared before it.
pub fn class_number(s: &[u8], name: Name) -> usize
    requires { is_thing (written name) ≡ false }
    ensures { result ≡ class_number (names_in s.now) (written name.entry) }
{
    let group = if name.is_open() {
        Group::Opens
    } else {
        Group::Constants
    };
    different(s, group, declared_at(s, Does::DeclaresClass, name))
}

// The number of an object property.
pub fn role_number(s: &[u8], name: Name) -> usize
    ensures { result ≡ role_number (names_in s.now) (written name.entry) }
{
    different(
        s,
        Group::Roles,
        declared_at(s, Does::DeclaresProperty, name),
    )
}

// How many names of the group a text declares.
pub fn count(s: &[u8], group: Group) -> usize
    ensures { result ≡ length (group_names (names_in s.now) (group_number group)) }
{
    different(s, group, s.len())
}
