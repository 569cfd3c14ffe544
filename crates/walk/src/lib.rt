// The walk goes along the list of nodes. One node is looked at by itself (`look`); siblings are swept over together, since they share a
// level (`advance`); a state is moved on by a share of nodes (`run`); and the walk is the root's state moved on by the budget (`walk`).
#![tactic(auto)]

ghost use Rattle.std.specs.Prelude.{◌≡◌, false, ◌+◌, ◌≤◌, ◌<◌, ◌^◌};
ghost use Rattle.bounds.specs.Bounds.{max_atoms, max_variables};
ghost use Rattle.el.specs.Table.{Table, atoms, role_order};
ghost use Rattle.el.specs.Walk.{outcome};
ghost use Rattle.table.specs.Reading.{header_of, table_of};
ghost use Rattle.walk.specs.Step.{InRange, Sound, dead_at, Next, Looks, Advances, CanCount, Runs, Given, Fresh, outcome_of};

use bounds::{Count, MAX_VARIABLES, SetNumber};
use level::Halt;
use node::{Prepared, Sets};
use table::Readable;

// Where a step leads: to the end of the walk, on to a node, or nowhere because no node is left.
#[derive(Clone, Copy, PartialEq, Eq)]
pub enum Going {
    Solved,
    On,
    Over,
}

// A state of the walk: the node to be examined next, or the one that ended the walk, and how many nodes were examined.
#[derive(Clone, Copy)]
pub struct State {
    pub going: Going,
    pub sets: Sets,
    pub count: Count,
}

// The next node that does not lie below this one: the next sibling, or that of the node above.
fn next_node(sets: &mut Sets, last: SetNumber) -> Going
    requires { (sets.old.chosen ≤ max_variables) × (last < 2 ^ max_atoms) }
    ensures { (t : Table) → 2 ^ atoms t ≡ last + 1 → Next t sets.old result sets.new }
{
    for k in (0..sets.chosen).rev() {
        if sets.set[k] < last {
            sets.set[k] += 1;
            sets.chosen = k + 1;
            return Going::On;
        }
        sets.set[k] = 0;
    }
    sets.chosen = 0;
    Going::Over
}

// A live node: full, it ends the walk; otherwise it is followed by its first child.
fn enter(sets: &mut Sets, v: usize) -> Going
    requires { (v ≤ max_variables) × (sets.old.chosen ≤ v) }
    ensures { (t : Table) → v ≡ t.variables → dead_at t sets.old ≡ false → Looks t sets.old result sets.new }
{
    if sets.chosen == v {
        return Going::Solved;
    }
    sets.set[sets.chosen] = 0;
    sets.chosen += 1;
    Going::On
}

// One node examined by itself, whatever lies above it.
fn look(table: Readable, prepared: &Prepared, last: SetNumber, sets: &mut Sets) -> Going
    requires { Given table.bytes.now prepared.now last × InRange (table_of table.bytes.now) sets.old }
    ensures { Looks (table_of table.entry.bytes.now) sets.old result sets.new }
{
    if node::is_dead(table, prepared, sets) {
        next_node(sets, last)
    } else {
        enter(sets, prepared.rows.v)
    }
}

// Sweeps over the siblings from the state's node on, until `end` nodes are examined at most, and steps on from where that ends.
fn advance(table: Readable, prepared: &Prepared, last: SetNumber, state: &mut State, end: Count)
    requires { Given table.bytes.now prepared.now last × Sound (table_of table.bytes.now) state.old.sets × (0 < state.old.sets.chosen) × (state.old.count < end) }
    ensures { Advances (table_of table.entry.bytes.now) state.old end state.new }
{
    let level = level::level_of(prepared.fillers(), &prepared.lines, &state.sets);
    let most = end - state.count;
    let swept = level::sweep(table, prepared, &level, state.sets, last, most);
    state.sets.set[state.sets.chosen - 1] = swept.at;
    state.count += swept.passed;
    state.going = match swept.end {
        Halt::Live => enter(&mut state.sets, prepared.rows.v),
        Halt::Over => next_node(&mut state.sets, last),
        Halt::Spent => Going::On,
    };
}

// The last set number over n atoms.
fn last_set(n: usize) -> SetNumber
    requires { n ≤ max_atoms }
    ensures { result + 1 ≡ 2 ^ n }
{
    (1 << n) - 1
}

// A state moved on by at most `share` nodes, by fewer only where the walk ends. One that has ended stays. The first node is looked at by
// itself, and the walk goes on below a live one. A `while` and no count by one: a sweep passes several nodes.
pub fn run(table: Readable, mut state: State, share: Count) -> State
    requires { Sound (table_of table.bytes.now) state.sets × CanCount state.count share }
    ensures { Runs (table_of table.entry.bytes.now) state share result }
{
    if state.going != Going::On || share == 0 {
        return state;
    }
    let prepared = node::prepare(table);
    let last = last_set(prepared.rows.c + prepared.rows.e);
    let end = state.count + share;
    state.going = look(table, &prepared, last, &mut state.sets);
    state.count += 1;
    while state.going == Going::On && state.count < end {
        advance(table, &prepared, last, &mut state, end);
    }
    state
}

// The state at the root, before any node is examined.
pub fn fresh() -> State
    ensures { Fresh result }
{
    let sets = Sets {
        set: [0; MAX_VARIABLES],
        chosen: 0,
    };
    State {
        going: Going::On,
        sets,
        count: 0,
    }
}

// The walk over a readable table with a budget.
pub fn walk(table: Readable, budget: Count) -> State
    ensures { (outcome_of result ≡ outcome (role_order (table_of table.entry.bytes.now)) (table_of table.entry.bytes.now) budget) × (result.sets.chosen ≤ (header_of table.entry.bytes.now).v) }
{
    run(table, fresh(), budget)
}
