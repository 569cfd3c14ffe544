// The rows of a text's table: its restrictions in the order of the text, equal ones once.
//
// There is no array of rows and no bound on their number. Two restrictions have one row if they have one role and one name for a filler; a
// filler that is no name has a variable of its own, so its restriction has a row of its own. So each answer reads the text once for each
// restriction that it asks about.
#![tactic(auto)]

ghost use Rattle.std.specs.Prelude.{◌≡◌, [], ◌≤◌, length};
ghost use Rattle.owl.specs.Once.{once};
ghost use Rattle.owl.specs.Naming.{same_name};
ghost use Rattle.owl.specs.Restriction.{by_name, restricted, standing, restrictions_of, owns_of, same_restriction};
ghost use Rattle.owl_name.specs.Walk.{written, named_and, passes};
ghost use Rattle.owl_row.specs.Rows.{first_row, different_rows, alike_in, row_in, own_in, fresh_before, filler_kind, filler_number, IsNumber, IsFiller};

use owl_name::{Does, Name, Stop, Walk};

// A filler of a row, each but top with its number among its kind.
#[derive(Clone, Copy, PartialEq, Eq)]
pub enum Filler {
    Top,
    Constant(usize),
    Open(usize),
    Fresh(usize),
}

// Whether what may be a name is this one. Two names are compared and not two options, and `alike` asks first what a name does there: so
// `first_row` takes a sixth fewer instructions.
fn is(found: Option<Name>, name: &Name) -> bool
    ensures { result ≡ named_and (same_name (written name.now)) found.entry }
{
    match found {
        Some(found) => found == *name,
        None => false,
    }
}

// Whether a token is the role of a restriction with this role and this name for a filler.
fn alike(s: &[u8], stop: &Stop, role: &Name, filler: &Name) -> bool
    requires { stop.now.end ≤ length s.now }
    ensures { result ≡ passes (alike_in s.now (written role.now) (written filler.now) stop.now.end) stop.now }
{
    match stop.does {
        Does::UsesProperty => is(stop.name, role) && is(owl_name::name_at(s, stop.end), filler),
        _ => false,
    }
}

// The byte of the first restriction with this role and this name for a filler; the text's length if there is none, as the definition says. The
// loop is no `find`: its invariant speaks of where the walk is.
pub fn first_row(s: &[u8], role: Name, filler: Name) -> usize
    ensures { result ≡ first_row s.now (restricted (written role.entry) (by_name (written filler.entry))) }
{
    for stop in Walk::new(s) {
        if alike(s, &stop, &role, &filler) {
            return stop.place;
        }
    }
    s.len()
}

// Whether a token is the role of a restriction whose row stands nowhere before it.
pub fn adds(s: &[u8], stop: &Stop) -> bool
    requires { stop.now.end ≤ length s.now }
    ensures { result ≡ passes (row_in s.now stop.now.place stop.now.end) stop.now }
{
    let Some(role) = stop.role() else {
        return false;
    };
    match owl_name::name_at(s, stop.end) {
        Some(filler) => first_row(s, role, filler) == stop.place,
        None => true,
    }
}

// How many different rows the restrictions before a byte have. The loop is no chain of `take_while`, `filter` and `count`: its invariant speaks of
// where the walk is.
fn different(s: &[u8], limit: usize) -> usize
    ensures { result ≡ different_rows s.now limit }
{
    let mut count = 0;
    for stop in Walk::new(s) {
        if limit <= stop.place {
            break;
        }
        count += usize::from(adds(s, &stop));
    }
    count
}

// How many rows a text's table has.
pub fn rows(s: &[u8]) -> usize
    ensures { result ≡ length (once same_restriction [] (restrictions_of (standing s.now))) }
{
    different(s, s.len())
}

// The number of the row of the restriction whose role is the next token after a byte.
pub fn row_number(s: &[u8], at: usize) -> usize
    requires { at ≤ length s.now }
    ensures { IsNumber s.now at result }
{
    let token = owl_token::token_at(s, at);
    let first = match owl_name::name_at(s, token.end) {
        None => token.place,
        Some(filler) => match Name::of(token.kind, &s[token.place..token.end]) {
            Some(role) => first_row(s, role, filler),
            None => s.len(), // no restriction has it for a role
        },
    };
    different(s, first)
}

// Whether a token is the role of a restriction whose filler is no name.
pub fn own_here(s: &[u8], stop: &Stop) -> bool
    requires { stop.now.end ≤ length s.now }
    ensures { result ≡ passes (own_in s.now stop.now.end) stop.now }
{
    stop.role().is_some() && owl_name::name_at(s, stop.end).is_none()
}

// How many restrictions before a byte have a filler that is no name. The loop of `different` with another test: taking the test as a closure is
// no plainer, since a contract for both would speak of the closure's answer at each stop.
fn fresh_before(s: &[u8], limit: usize) -> usize
    ensures { result ≡ fresh_before s.now limit }
{
    let mut count = 0;
    for stop in Walk::new(s) {
        if limit <= stop.place {
            break;
        }
        count += usize::from(own_here(s, &stop));
    }
    count
}

// How many fresh variables a text's table has: one for each filler that is no name.
pub fn fresh(s: &[u8]) -> usize
    ensures { result ≡ owns_of (restrictions_of (standing s.now)) }
{
    fresh_before(s, s.len())
}

// The filler of the restriction whose role is the next token after a byte.
pub fn filler_of(s: &[u8], at: usize) -> Filler
    requires { at ≤ length s.now }
    ensures { IsFiller s.now at (filler_kind result) (filler_number result) }
{
    let role = owl_token::token_at(s, at);
    match owl_name::name_at(s, role.end) {
        None => Filler::Fresh(fresh_before(s, role.place)),
        Some(name) if name.is_thing() => Filler::Top,
        Some(name) if name.is_open() => Filler::Open(owl_name::class_number(s, name)),
        Some(name) => Filler::Constant(owl_name::class_number(s, name)),
    }
}
