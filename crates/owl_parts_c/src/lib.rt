// The names, rows and conjuncts of a text, for C, for the runs. A lent slice passes as a pointer and then a length, a lent array as a pointer.
// Numbers go to u64 by `as`, which drops nothing: there is no `From` for usize.
#![tactic(auto)]

ghost use Rattle.std.specs.Prelude.{◌≡◌, ◌≤◌, length};
ghost use Rattle.owl.specs.Naming.{role_number};
ghost use Rattle.owl.specs.Mention.{name_by, names_in, undeclared};
ghost use Rattle.owl_name.specs.Walk.{written};
ghost use Rattle.owl_row.specs.Rows.{IsNumber};
ghost use Rattle.owl_class.specs.Ends.{HasConjuncts};
ghost use Rattle.owl_parts_c.specs.C.{counts_of, kind_by, class_or_none, row_counts, FillerIn, EntryIn};

use owl_class::Entry;
use owl_name::{Group, Name};
use owl_row::Filler;

// Returns the byte of the first name that is not declared; the counts of constants, open names and roles are in the lent array.
#[tactic(auto, unfolding(crate::specs::C::counts_of, owl_name::specs::Declarations::group_names))]
#[unsafe(no_mangle)]
pub extern "C" fn makrothel_owl_names(text: &[u8], counts: &mut [u64; 3]) -> u64
    ensures byte { result ≡ undeclared text.now }
    ensures counts { counts.new ≡ counts_of text.now }
{
    *counts = [
        owl_name::count(text, Group::Constants) as u64,
        owl_name::count(text, Group::Opens) as u64,
        owl_name::count(text, Group::Roles) as u64,
    ];
    owl_name::first_undeclared(text) as u64
}

// A full name begins with `<`.
fn name_of(bytes: &[u8]) -> Name<'_>
    ensures { written result ≡ name_by (kind_by bytes.now) bytes.now }
{
    if bytes.starts_with(b"<") {
        Name::Full(bytes)
    } else {
        Name::Short(bytes)
    }
}

// The number of a class name; 0 for owl:Thing, which has none.
#[tactic(auto, unfolding(crate::specs::C::class_or_none))]
#[unsafe(no_mangle)]
pub extern "C" fn makrothel_owl_class(text: &[u8], name: &[u8]) -> u64
    ensures { result ≡ class_or_none (names_in text.now) (name_by (kind_by name.now) name.now) }
{
    let name = name_of(name);
    if name.is_thing() {
        0
    } else {
        owl_name::class_number(text, name) as u64
    }
}

// The number of an object property.
#[unsafe(no_mangle)]
pub extern "C" fn makrothel_owl_role(text: &[u8], name: &[u8]) -> u64
    ensures { result ≡ role_number (names_in text.now) (name_by (kind_by name.now) name.now) }
{
    owl_name::role_number(text, name_of(name)) as u64
}

// The counts of rows and of fresh variables are in the lent array.
#[tactic(auto, unfolding(crate::specs::C::row_counts))]
#[unsafe(no_mangle)]
pub extern "C" fn makrothel_owl_rows(text: &[u8], counts: &mut [u64; 2])
    ensures { counts.new ≡ row_counts text.now }
{
    *counts = [owl_row::rows(text) as u64, owl_row::fresh(text) as u64];
}

// Returns the number of the row of the restriction whose role is the next token after a byte; behind the text's end, 0.
#[unsafe(no_mangle)]
pub extern "C" fn makrothel_owl_row(text: &[u8], at: usize) -> u64
    ensures { at ≤ length text.now → IsNumber text.now at result }
{
    if text.len() < at {
        0
    } else {
        owl_row::row_number(text, at) as u64
    }
}

// The kind and the number of that row's filler are in the lent array.
#[tactic(auto, unfolding(crate::specs::C::FillerIn))]
#[unsafe(no_mangle)]
pub extern "C" fn makrothel_owl_filler(text: &[u8], at: usize, filler: &mut [u64; 2])
    ensures { at ≤ length text.now → FillerIn text.now at filler.new }
{
    if text.len() < at {
        *filler = [0, 0];
        return;
    }
    *filler = match owl_row::filler_of(text, at) {
        Filler::Top => [0, 0],
        Filler::Constant(number) => [1, number as u64],
        Filler::Open(number) => [2, number as u64],
        Filler::Fresh(number) => [3, number as u64],
    };
}

// Returns how many conjuncts the class expression has that begins with the next token after a byte; behind the text's end, 0.
#[unsafe(no_mangle)]
pub extern "C" fn makrothel_owl_conjuncts(text: &[u8], at: usize) -> u64
    ensures { at ≤ length text.now → HasConjuncts text.now at result }
{
    if text.len() < at {
        0
    } else {
        owl_class::conjuncts(text, at) as u64
    }
}

// The kind and the number of the entry of conjunct i are in the lent array; kind 0: there is no conjunct i.
#[tactic(auto, unfolding(crate::specs::C::EntryIn))]
#[unsafe(no_mangle)]
pub extern "C" fn makrothel_owl_entry(text: &[u8], at: usize, i: usize, entry: &mut [u64; 2])
    ensures { at ≤ length text.now → EntryIn text.now at i entry.new }
{
    if text.len() < at {
        *entry = [0, 0];
        return;
    }
    *entry = match owl_class::entry_of(text, at, i) {
        None => [0, 0],
        Some(Entry::Constant(number)) => [1, number as u64],
        Some(Entry::Open(number)) => [2, number as u64],
        Some(Entry::Row(number)) => [3, number as u64],
    };
}
