// A node of the walk, and whether it is dead.
//
// Given are a readable table, what is prepared of it once, and the sets of the variables chosen so far. Variables are bits of
// a mask: one row of marks. The atoms whose filler is marked tell which variables depend on a marked one: those whose sets have such an
// atom. Marking these too, again and again, marks all that lead to the first marks. Striking out, again and again, what depends on
// nothing still standing leaves something exactly if the node is cyclic, and so dead. Else a variable is settled if it and all it leads to
// are chosen; a line is ready if all its variables are settled; and the node is dead if a ready line fails.
#![tactic(auto)]

ghost use Rattle.std.specs.Prelude.{◌≡◌, ◌&&◌, not, ℕ, ◌+◌, ◌≤◌, ◌<◌, T, ltb, length, take, List};
ghost use Rattle.std.proofs.Math.Option.{some};
ghost use Rattle.el.specs.Test.{bit};
ghost use Rattle.el.specs.Table.{Entry, Row, Table, declared, role_order};
ghost use Rattle.el.specs.Assignment.{acyclic};
ghost use Rattle.el.specs.Walk.{entry_variables, settled, dead};
ghost use Rattle.bounds.specs.Bounds.{max_restrictions, max_atoms, max_variables};
ghost use Rattle.table.specs.Code.{kind_of, entry_of};
ghost use Rattle.table.specs.Reading.{reading, is_readable, table_of, header_of};
ghost use Rattle.table.specs.Layout.{LineBegins, AtLine};
ghost use Rattle.node.specs.Mask.{Masks, Picks, is_among, is_named, Names, MaskFits, FillMasks, Fills, LineMask, LineMasks, LineStarts};
ghost use Rattle.node.specs.Marks.{depends_in, AtomsInto, has_one, LeadsInto};
ghost use Rattle.node.specs.Node.{node_of, Prepares, NodeGiven, first_failing};

use bounds::{MAX_LINES, MAX_RESTRICTIONS, MAX_VARIABLES, Place, SetNumber, VariableMask};
use order::Rows;
use table::{Kind, Readable};

// One set number for each variable, and how many variables are chosen.
#[derive(Clone, Copy)]
pub struct Sets {
    pub set: [SetNumber; MAX_VARIABLES],
    pub chosen: usize,
}

impl Sets {
    // The sets of the chosen variables.
    pub fn node(&self) -> &[SetNumber]
        requires { self.now.chosen ≤ max_variables }
        ensures { result.now ≡ node_of self.now }
    {
        &self.set[..self.chosen]
    }
}

// A row of marks on the variables, and the atoms whose filler is marked.
#[derive(Clone, Copy)]
pub struct Marks {
    pub marked: VariableMask,
    pub atoms: SetNumber,
}

// How many lines there are, the mask of the variables of each, and the byte where it begins. Two arrays and not one of pairs: a mask and a
// place have six bytes, a pair of them eight.
#[derive(Clone, Copy)]
pub struct Lines {
    pub count: usize,
    pub mask: [VariableMask; MAX_LINES],
    pub start: [Place; MAX_LINES],
}

// What is the same at every node of a table: its rows for the line test, the mask of the variable inside each restriction, and its lines.
// That they are the table's (`Prepares`) is no fact of the type: `level::sweep` asks for parts of it alone.
#[derive(Clone, Copy)]
pub struct Prepared {
    pub rows: Rows,
    pub fill: [VariableMask; MAX_RESTRICTIONS],
    pub lines: Lines,
}

// What dependences are read from: the mask of the variable inside each restriction, and how many constants come before their atoms.
#[derive(Clone, Copy)]
pub struct Fillers<'a> {
    pub masks: &'a [VariableMask],
    pub constants: usize,
    ghost few_atoms: { constants + length masks.now ≤ max_atoms },
}

// The mask of the variable that a code names; 0 where it names none.
fn variable_mask(code: u8) -> VariableMask
    requires { Names code }
    ensures { Masks (is_named (kind_of code)) result }
{
    match table::kind_of(code) {
        Kind::Variable(x) => 1 << x,
        _ => 0,
    }
}

// The mask of the first k variables.
pub fn first_mask(k: usize) -> VariableMask
    requires { k ≤ max_variables }
    ensures { Masks (λ x. ltb x k) result }
{
    (1 << k) - 1
}

// The mask of the variables that are not in the mask.
pub fn others(mask: VariableMask) -> VariableMask
    ensures { Masks (λ x. ltb x max_variables && not (bit x mask)) result }
{
    first_mask(MAX_VARIABLES) & !mask
}

// The mask of the chosen variables whose sets have one of the atoms. `Fillers::atoms_into` is the same loop the other way round, over
// small masks into a large one: a function for both would take a closure, a shift and a cast, and be no shorter.
fn having(chosen: &[SetNumber], atoms: SetNumber) -> VariableMask
    requires { length chosen.now ≤ max_variables }
    ensures { Picks (has_one chosen.now atoms) (length chosen.now) result }
{
    let mut mask = 0;
    for (x, own) in chosen.iter().enumerate() {
        if own & atoms != 0 {
            mask |= 1 << x;
        }
    }
    mask
}

impl Fillers<'_> {
    // The atoms whose filler is a variable of the mask.
    fn atoms_into(self, mask: VariableMask) -> SetNumber
        ensures { AtomsInto self.entry.masks.now self.entry.constants (length self.entry.masks.now) mask result }
    {
        let mut atoms = 0;
        for (k, own) in self.masks.iter().enumerate() {
            if own & mask != 0 {
                atoms |= 1 << (self.constants + k);
            }
        }
        atoms
    }

    // Marks the variables of the mask, and all that lead to one of them over the chosen variables' sets. A round marks those that depend
    // on a marked one; where it marks no more, or no atom leads to a marked one, all are marked, and a round for each set is enough.
    pub fn leading_to(self, chosen: &[SetNumber], mask: VariableMask) -> Marks
        requires { length chosen.now ≤ max_variables }
        ensures { LeadsInto (depends_in self.entry.masks.now self.entry.constants (length self.entry.masks.now) chosen.now (length chosen.now)) mask result.marked × AtomsInto self.entry.masks.now self.entry.constants (length self.entry.masks.now) result.marked result.atoms }
    {
        let mut marked = mask;
        let mut atoms = self.atoms_into(mask);
        for _ in chosen {
            if atoms == 0 {
                break;
            }
            let more = marked | having(chosen, atoms);
            if more == marked {
                break;
            }
            marked = more;
            atoms = self.atoms_into(more);
        }
        Marks { marked, atoms }
    }

    // Does no variable depend on itself over one or more steps? All v variables stand at first. A round strikes out each that depends on
    // nothing still standing; a variable that is not chosen depends on nothing. The node is acyclic exactly if nothing stands at the end.
    pub fn is_acyclic(self, v: usize, chosen: &[SetNumber]) -> bool
        requires { (v ≤ max_variables) × (length chosen.now ≤ v) }
        ensures { (t : Table) → Fills t self.entry.constants (length self.entry.masks.now) self.entry.masks.now → length chosen.now ≤ t.variables → result ≡ acyclic t chosen.now }
    {
        let mut standing = first_mask(v);
        for _ in 0..v {
            let left = standing & having(chosen, self.atoms_into(standing));
            if left == standing {
                break;
            }
            standing = left;
        }
        standing == 0
    }

    // The mask of the settled variables: those chosen that lead to none that is not.
    fn settled_mask(self, chosen: &[SetNumber]) -> VariableMask
        requires { length chosen.now ≤ max_variables }
        ensures { (t : Table) → T (declared t) → t.variables ≤ max_variables → Fills t self.entry.constants (length self.entry.masks.now) self.entry.masks.now → Masks (settled t chosen.now) result }
    {
        let open = others(first_mask(chosen.len()));
        others(self.leading_to(chosen, open).marked)
    }
}

// The mask of the variables of the entry that a code writes, its filler included.
fn entry_mask(fill: &[VariableMask], code: u8) -> VariableMask
    requires { MaskFits fill.now code }
    ensures { (rows : List Row) (c e v : ℕ) (x : Entry) → FillMasks rows e fill.now → entry_of c e v code ≡ some x → Masks (is_among (entry_variables rows x)) result }
{
    match table::kind_of(code) {
        Kind::Restriction(k) => fill[usize::from(k)],
        _ => variable_mask(code),
    }
}

// The mask of the variable inside each restriction.
fn fill_masks(table: Readable) -> [VariableMask; MAX_RESTRICTIONS]
    ensures { FillMasks (table_of table.entry.bytes.now).rows (header_of table.entry.bytes.now).e result }
{
    let mut fill: [VariableMask; MAX_RESTRICTIONS] = [0; MAX_RESTRICTIONS];
    for k in 0..usize::from(table.header().e) {
        fill[k] = variable_mask(table.filler_of(k));
    }
    fill
}

// The mask of the variables of the line that begins at the byte `at`, fillers included.
fn line_mask(table: Readable, fill: &[VariableMask; MAX_RESTRICTIONS], at: usize) -> VariableMask
    requires { FillMasks (table_of table.bytes.now).rows (header_of table.bytes.now).e fill.now × LineBegins table.bytes.now at }
    ensures { AtLine table.entry.bytes.now at (λ l. LineMask (table_of table.entry.bytes.now).rows l result) }
{
    let mut mask = 0;
    for i in 0..table.left_count(at) {
        mask |= entry_mask(fill, table.left_code(at, i));
    }
    mask | entry_mask(fill, table.right_code(at))
}

// How many lines there are, the mask of the variables of each, and the byte where it begins.
fn lines_of(table: Readable, fill: &[VariableMask; MAX_RESTRICTIONS]) -> Lines
    requires { FillMasks (table_of table.bytes.now).rows (header_of table.bytes.now).e fill.now }
    ensures { (result.count ≡ (header_of table.entry.bytes.now).m) × LineMasks (table_of table.entry.bytes.now) result.count result.mask × LineStarts table.entry.bytes.now result.count result.start }
{
    let mut lines = Lines {
        count: usize::from(table.header().m),
        mask: [0; MAX_LINES],
        start: [0; MAX_LINES],
    };
    let mut at = table.line_start(0);
    for n in 0..lines.count {
        lines.mask[n] = line_mask(table, fill, at);
        lines.start[n] = at as Place;
        at += table.left_count(at) + 2;
    }
    lines
}

// What is prepared once for every node of a table.
pub fn prepare(table: Readable) -> Prepared
    ensures { Prepares table.entry.bytes.now result }
{
    let rows = order::rows_of(table);
    let fill = fill_masks(table);
    let lines = lines_of(table, &fill);
    Prepared { rows, fill, lines }
}

impl Prepared {
    // What dependences are read from.
    pub fn fillers(&self) -> Fillers<'_>
        requires { self.now.rows.c + self.now.rows.e ≤ max_atoms × self.now.rows.e ≤ max_restrictions }
        ensures { (result.masks.now ≡ take self.now.rows.e self.now.fill) × (result.constants ≡ self.now.rows.c) }
    {
        Fillers {
            masks: &self.fill[..self.rows.e],
            constants: self.rows.c,
        }
    }
}

// The number of the first line that is ready and fails at an acyclic node; the count of lines where none does.
pub fn first_failing(table: Readable, prepared: &Prepared, sets: &Sets) -> usize
    requires { NodeGiven table.bytes.now sets.now × Prepares table.bytes.now prepared.now × T (acyclic (table_of table.bytes.now) (node_of sets.now)) }
    ensures { result ≡ first_failing (table_of table.entry.bytes.now) (node_of sets.now) }
{
    let settled = prepared.fillers().settled_mask(sets.node());
    let lines = &prepared.lines;
    for n in 0..lines.count {
        let own = lines.mask[n];
        let at = usize::from(lines.start[n]);
        if own & settled == own && !order::line_holds(table, &prepared.rows, &sets.set, at) {
            return n;
        }
    }
    lines.count
}

// Whether the node is dead: its chosen sets are cyclic, or else a ready line fails.
pub fn is_dead(table: Readable, prepared: &Prepared, sets: &Sets) -> bool
    requires { NodeGiven table.bytes.now sets.now × Prepares table.bytes.now prepared.now }
    ensures { result ≡ dead (role_order (table_of table.entry.bytes.now)) (table_of table.entry.bytes.now) (node_of sets.now) }
{
    !prepared.fillers().is_acyclic(prepared.rows.v, sets.node())
        || first_failing(table, prepared, sets) < prepared.lines.count
}
