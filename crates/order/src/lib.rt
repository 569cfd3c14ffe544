// The test of one line at a node.
//
// Given are the rows of a readable table, prepared (`over`: which rows' roles lie under row j's; `inner`: the codes of the fillers), its
// counts c, e and v, and the set number of each variable. The questions ask each other: whether a conjunction, given as a set number, lies
// below one atom; whether it lies below every atom of another; and whether one filler lies below another. Each time round one dependence
// less is left. An atom that both sets have lies below itself, so only the missing ones are asked; a missing constant decides at once, so
// restrictions are left.
#![tactic(auto)]

ghost use Rattle.std.specs.Prelude.{◌≡◌, ◌+◌, ◌<◌};
ghost use Rattle.std.specs.Iterator.{at_most};
ghost use Rattle.bounds.specs.Bounds.{set_bits};
ghost use Rattle.el.specs.Table.{Table, role_order};
ghost use Rattle.el.specs.Test.{any_below, bit};
ghost use Rattle.el.specs.Rank.{count_below};
ghost use Rattle.el.specs.Assignment.{induced};
ghost use Rattle.el.specs.Meaning.{holds};
ghost use Rattle.table.specs.Reading.{header_of, table_of};
ghost use Rattle.table.specs.Layout.{LineBegins, AtLine};
ghost use Rattle.roles.specs.Under.{RolesUnder};
ghost use Rattle.order.specs.Rule.{is_constant, flat_test, filler_set, entry_set, left_set};
ghost use Rattle.order.specs.Given.{filler_from, entry_from, FillerFits, EntryFits, Over, RowsGiven, SetsGiven, Asking, LineGiven};
ghost use Rattle.order.specs.Asked.{NextBit, set_asked, each_asked, filler_asked};

use bounds::{RowMask, SetNumber};
use roles::Under;
use table::{Kind, Readable};

// The rows of a table for the line test, and its counts of constants, rows and variables: bit k of `over[j]` says that row k's role lies
// under row j's, and `inner[k]` is the code of row k's filler. Two arrays and not one of pairs, which takes nearly twice the room: the test
// reads the mask of the row that it asks about, and the fillers alone of the rows that it meets.
#[derive(Clone, Copy)]
pub struct Rows {
    pub over: [RowMask; bounds::MAX_RESTRICTIONS],
    pub inner: [u8; bounds::MAX_RESTRICTIONS],
    pub c: usize,
    pub e: usize,
    pub v: usize,
}

// The rows, e in number, whose roles lie under row j's.
fn row_over(table: Readable, under: &Under, e: usize, j: usize) -> RowMask
    requires { RolesUnder (table_of table.bytes.now) under.now.mask × (e ≡ (header_of table.bytes.now).e) × (j < e) }
    ensures { Over table.entry.bytes.now j e result }
{
    let near = SetNumber::from(under.mask[usize::from(table.role_of(j))]);
    let mut mask = 0;
    for k in 0..e {
        if bounds::has_bit(near, usize::from(table.role_of(k))) {
            mask |= 1 << k;
        }
    }
    mask
}

pub fn rows_of(table: Readable) -> Rows
    ensures { RowsGiven table.entry.bytes.now result }
{
    let header = table.header();
    let under = roles::roles_under(table);
    let e = usize::from(header.e);
    let mut over = [0; bounds::MAX_RESTRICTIONS];
    let mut inner = [0; bounds::MAX_RESTRICTIONS];
    for j in 0..e {
        over[j] = row_over(table, &under, e, j);
        inner[j] = table.filler_of(j);
    }
    Rows {
        over,
        inner,
        c: usize::from(header.c),
        e,
        v: usize::from(header.v),
    }
}

// The bits of a mask, lowest first.
#[derive(Drop)]
struct Bits {
    mask: SetNumber,
}

fn bits_of(mask: SetNumber) -> Bits
    ensures { result.mask ≡ mask }
{
    Bits { mask }
}

impl Iterator for Bits {
    type Item = usize;

    ghost next_gives = { λ s bit t. NextBit s.mask bit t.mask };

    ghost remaining = { λ s. at_most (count_below set_bits (λ i. bit i s.mask)) };

    fn next(&mut self) -> Option<usize> {
        if self.mask == 0 {
            return None;
        }
        let k = bounds::low_zeros(self.mask);
        self.mask ^= 1 << k;
        Some(k)
    }
}

// One of the first c atoms, the constants, is missing.
fn lacks_constant(missing: SetNumber, c: usize) -> bool
    requires { c < set_bits }
    ensures { result ≡ any_below c (λ j. bit j missing) }
{
    missing % (1 << c) != 0
}

// The set of a filler: top has no conjunct, a constant is one.
fn filler_set(set: &[SetNumber], code: u8) -> SetNumber
    requires { SetsGiven set.now × FillerFits code }
    ensures { result ≡ filler_set set.now (filler_from code) }
{
    match table::kind_of(code) {
        Kind::Constant(k) => 1 << k,
        Kind::Variable(x) => set[usize::from(x)],
        Kind::Top | Kind::Restriction(_) | Kind::Other => 0,
    }
}

// The set of an entry of a line, where c constants are declared: a constant and a restriction are one atom. No entry is top or of no
// range; that arm is never taken, and answers as for constant 0, the entry that `entry_from` gives them.
fn entry_set(set: &[SetNumber], c: usize, code: u8) -> SetNumber
    requires { SetsGiven set.now × EntryFits c code }
    ensures { (t : Table) → c ≡ t.constants → result ≡ entry_set t set.now (entry_from code) }
{
    match table::kind_of(code) {
        Kind::Constant(k) => 1 << k,
        Kind::Restriction(k) => 1 << (c + usize::from(k)),
        Kind::Variable(x) => set[usize::from(x)],
        Kind::Top | Kind::Other => 1,
    }
}

// The set of the left side of the line that begins at the byte `at`: the union of its entries' sets.
fn left_set(table: Readable, set: &[SetNumber], c: usize, at: usize) -> SetNumber
    requires { (c ≡ (header_of table.bytes.now).c) × SetsGiven set.now × LineBegins table.bytes.now at }
    ensures { AtLine table.entry.bytes.now at (λ l. result ≡ left_set (table_of table.entry.bytes.now) set.now l.left) }
{
    let mut left = 0;
    for i in 0..table.left_count(at) {
        left |= entry_set(set, c, table.left_code(at, i));
    }
    left
}

// The filler f is constant k.
fn is_constant(f: u8, k: u8) -> bool
    ensures { result ≡ is_constant k (filler_from f) }
{
    table::kind_of(f) == Kind::Constant(k)
}

// Filler f lies below filler g where no dependence is left: each variable stands for top.
fn flat_below(f: u8, g: u8) -> bool
    ensures { result ≡ flat_test (filler_from f) (filler_from g) }
{
    match table::kind_of(g) {
        Kind::Constant(k) => is_constant(f, k),
        Kind::Top | Kind::Restriction(_) | Kind::Variable(_) | Kind::Other => true,
    }
}

// What the questions are asked of: the prepared rows of a table, and the set of each variable.
#[derive(Clone, Copy)]
struct Asked<'a> {
    rows: &'a Rows,
    set: &'a [SetNumber],
    ghost asking: { Asking rows.now set.now },
}

impl Asked<'_> {
    // The conjunction of the set s lies below atom j: one of its atoms does.
    #[cycle(below)]
    #[inline]
    fn set_below(self, s: SetNumber, j: usize, depth: usize) -> bool
        requires { j < self.rows.now.c + self.rows.now.e }
        ensures { result ≡ set_asked self.entry.rows.now self.entry.set.now depth s j }
    {
        let rows = self.rows;
        if j < rows.c {
            return bounds::has_bit(s, j);
        }
        let row = j - rows.c;
        for k in bits_of((s >> rows.c) & rows.over[row]) {
            if k < rows.e && self.filler_below(rows.inner[k], rows.inner[row], depth) {
                return true;
            }
        }
        false
    }

    // The conjunction of the set `left` lies below every atom of the set `missing`, which has no constant. That none is missing, or a
    // constant is, both callers ask first: with these tests inside, many lines cost more.
    #[cycle(below)]
    #[inline]
    fn each_below(self, left: SetNumber, missing: SetNumber, depth: usize) -> bool
        ensures { result ≡ each_asked self.entry.rows.now self.entry.set.now depth left missing }
    {
        for j in bits_of(missing) {
            if j < self.rows.c + self.rows.e && !self.set_below(left, j, depth) {
                return false;
            }
        }
        true
    }

    // Filler f lies below filler g: the conjunction of f's set lies below every atom of g's. Of the three questions it alone is a call in the
    // program, and `self` goes by value: where a line asks of no filler, its test makes no call and puts nothing together in memory.
    #[cycle(below)]
    #[inline(never)]
    fn filler_below(self, f: u8, g: u8, depth: usize) -> bool
        requires { FillerFits f × FillerFits g }
        ensures { result ≡ filler_asked self.entry.rows.now self.entry.set.now depth f g }
    {
        if depth == 0 {
            return flat_below(f, g);
        }
        let left = filler_set(self.set, f);
        let missing = filler_set(self.set, g) & !left;
        missing == 0
            || !lacks_constant(missing, self.rows.c) && self.each_below(left, missing, depth - 1)
    }
}

// The line that begins at the byte `at` holds under the substitution that the sets induce. What is asked is put together where it is
// asked: most lines are decided before, and a fifth slower where it stands first.
pub fn line_holds(table: Readable, rows: &Rows, set: &[SetNumber], at: usize) -> bool
    requires { LineGiven table.bytes.now rows.now set.now at }
    ensures { AtLine table.entry.bytes.now at (λ l. result ≡ holds (role_order (table_of table.entry.bytes.now)) (table_of table.entry.bytes.now).rows (induced (table_of table.entry.bytes.now) set.now) l) }
{
    let left = left_set(table, set, rows.c, at);
    let missing = entry_set(set, rows.c, table.right_code(at)) & !left;
    missing == 0
        || !lacks_constant(missing, rows.c)
            && (Asked { rows, set }).each_below(left, missing, rows.v)
}
