// A level of the walk: what the children of one live node share. Worked out once for a node, it leaves for each child two masks
// to hold its newest set against, and the lines that only now are ready.
#![tactic(auto)]

ghost use Rattle.std.specs.Prelude.{◌≡◌, ◌≤◌, length, take};
ghost use Rattle.bounds.specs.Bounds.{max_variables, max_lines};
ghost use Rattle.el.specs.Table.{role_order};
ghost use Rattle.el.specs.Walk.{dead};
ghost use Rattle.table.specs.Reading.{table_of};
ghost use Rattle.level.specs.Level.{fresh_mask, is_fresh, Listed, LevelGiven, LevelFor, fresh_fails};
ghost use Rattle.level.specs.Sweep.{own_of, FreshGiven, ChildGiven, SweepGiven, Sweeps};

use bounds::{Count, MAX_LINES, SetNumber, VariableMask};
use node::{Fillers, Lines, Marks, Prepared, Sets};
use table::Readable;

// The atoms that lead a newest variable back to itself, those that lead it to a variable that is not chosen, and the numbers of
// the lines that the children have to test: an array and how many there are, since memory is fixed.
#[derive(Clone, Copy)]
pub struct Level {
    pub turning: SetNumber,
    pub leaving: SetNumber,
    pub fresh: [u8; MAX_LINES],
    pub few: usize,
}

// Has the line with the variables `own` one of `about`, and none that is not of `near`?
fn passes(own: VariableMask, about: VariableMask, near: VariableMask) -> bool
    ensures { result ≡ fresh_mask own about near }
{
    own & about != 0 && own & near == own
}

// The level with these atoms, and the lines that have a variable marked in `back` and only variables of `near`.
fn collect(lines: &Lines, back: Marks, near: VariableMask, leaving: SetNumber) -> Level
    requires { lines.now.count ≤ max_lines }
    ensures { (result.turning ≡ back.atoms) × (result.leaving ≡ leaving) × Listed (is_fresh lines.now.mask back.marked near) lines.now.count result.fresh result.few }
{
    let mut fresh = [0; MAX_LINES];
    let mut few = 0;
    for n in 0..lines.count {
        if passes(lines.mask[n], back.marked, near) {
            fresh[few] = n as u8;
            few += 1;
        }
    }
    Level {
        turning: back.atoms,
        leaving,
        fresh,
        few,
    }
}

// The level of a node: that of its parent's children. One row of marks has the variables that lead to the newest one, another those that
// lead to one after it, which is not chosen; the atoms whose filler is so marked are the two masks of the level.
pub fn level_of(fillers: Fillers, lines: &Lines, sets: &Sets) -> Level
    requires { LevelGiven lines.now sets.now }
    ensures { LevelFor fillers.entry.masks.now fillers.entry.constants lines.now sets.now result }
{
    let y = sets.chosen - 1;
    let parent = &sets.set[..y];
    let newest = 1 << y;
    let back = fillers.leading_to(parent, newest);
    let later = node::others(node::first_mask(y + 1));
    let out = fillers.leading_to(parent, later);
    let near = node::others(out.marked);
    collect(lines, back, near, out.atoms)
}

// One of the level's lines fails at the node.
fn fresh_fails(table: Readable, prepared: &Prepared, level: &Level, sets: &Sets) -> bool
    requires { FreshGiven table.bytes.now prepared.now level.now sets.now }
    ensures { result ≡ fresh_fails (table_of table.entry.bytes.now) sets.now.set level.now.fresh level.now.few }
{
    for n in &level.fresh[..level.few] {
        let at = usize::from(prepared.lines.start[usize::from(*n)]);
        if !order::line_holds(table, &prepared.rows, &sets.set, at) {
            return true;
        }
    }
    false
}

// Is the node, the child of a live one with the newest set x, dead? Cyclic through the newest variable, or else one of the level's lines
// fails; but where the newest variable leads to one that is not chosen, no line is ready that was not ready before. The sweep has x at hand;
// read from the sets once more it costs time.
fn child_is_dead(
    table: Readable,
    prepared: &Prepared,
    level: &Level,
    sets: &Sets,
    x: SetNumber,
) -> bool
    requires { ChildGiven table.bytes.now prepared.now level.now sets.now × (x ≡ own_of sets.now) × (length sets.now.set ≡ max_variables) }
    ensures { result ≡ dead (role_order (table_of table.entry.bytes.now)) (table_of table.entry.bytes.now) (take sets.now.chosen sets.now.set) }
{
    let turns = x & level.turning != 0;
    let leaves = x & level.leaving != 0;
    turns || !leaves && fresh_fails(table, prepared, level, sets)
}

// What halted a sweep over siblings: a live one, the last one passed, or as many examined as were allowed.
#[derive(Clone, Copy)]
pub enum Halt {
    Live,
    Over,
    Spent,
}

// How many siblings were examined, and the set number of the one at hand.
#[derive(Clone, Copy)]
pub struct Swept {
    pub end: Halt,
    pub passed: Count,
    pub at: SetNumber,
}

// Examines the node and its siblings after it, at most `most` of them, up to the first that is live.
pub fn sweep(
    table: Readable,
    prepared: &Prepared,
    level: &Level,
    mut sets: Sets,
    last: SetNumber,
    most: Count,
) -> Swept
    requires { SweepGiven table.bytes.now prepared.now level.now sets last }
    ensures { Sweeps (table_of table.entry.bytes.now) sets last most result }
{
    let y = sets.chosen - 1;
    for passed in 0..most {
        let x = sets.set[y];
        if !child_is_dead(table, prepared, level, &sets, x) {
            return Swept {
                end: Halt::Live,
                passed: passed + 1,
                at: x,
            };
        }
        if last <= x {
            return Swept {
                end: Halt::Over,
                passed: passed + 1,
                at: x,
            };
        }
        sets.set[y] = x + 1;
    }
    Swept {
        end: Halt::Spent,
        passed: most,
        at: sets.set[y],
    }
}
