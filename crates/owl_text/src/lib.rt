// Whether a text is the written form of an OWL file, and the first token that spoils it.
//
// Constructs nest without bound, and there is no recursion, no heap and no stack. The level of a construct has a state, which says what
// the construct still asks for; it changes only by tokens that stand directly in that level, and by those that open it. So the text is
// read once for each block of 4,096 levels. A reading judges the tokens in its block, of the others it knows the depth alone, and it
// goes no further than the first refusal that was found before it.
#![tactic(auto)]

ghost use Rattle.std.specs.Prelude.{◌≡◌, ◌&&◌, ◌⊎◌, true, false, ◌+◌, ◌-◌, ◌*◌, ◌/◌, ◌%◌, ◌≤◌, ◌<◌, eqb, length, get_or, MatchOption, MatchResult};
ghost use Rattle.owl.specs.Grammar.{checked};
ghost use Rattle.owl_token.specs.Kind.{kind_number};
ghost use Rattle.owl_text.specs.Levels.{column, next, opener, inner, deeper, opened, Updated, Clear, Refused, Found};
ghost use Rattle.owl_text.specs.Verdict.{reason_number, verdict_of};

use owl_token::Kind;

// Why a text is refused, with the number that is handed back.
#[derive(Clone, Copy, PartialEq, Eq)]
pub enum Reason {
    // A token does not follow the written form, or the text ends too early.
    Syntax = 10,
    // An axiom or a constructor that is not listed.
    Unlisted = 11,
}

// A refusal, and where the token begins.
#[derive(Clone, Copy)]
pub struct Refusal {
    pub reason: Reason,
    pub place: usize,
}

// Where a reading ends: the byte from which its last token is sought, the verdict there, and the greatest depth before.
#[derive(Clone, Copy)]
pub struct End {
    pub at: usize,
    pub verdict: Result<(), Refusal>,
    pub most: usize,
}

// How many levels a block has.
const LEVELS: usize = 4096;

// The states of the levels of one block.
#[derive(Drop)]
struct Levels {
    block: usize,
    states: [u8; LEVELS],
}

// Kinds that do the same in every state have one column.
#[tactic(auto, unfolding(crate::specs::Levels::column, crate::specs::Levels::columns))]
fn column(k: Kind) -> usize
    ensures { (result ≡ column (kind_number k)) × (result < 14) }
{
    match k {
        Kind::End | Kind::Other => 0,
        Kind::Open => 1,
        Kind::Close => 2,
        Kind::Equals => 3,
        Kind::Prefix => 4,
        Kind::Ontology => 5,
        Kind::Declaration => 6,
        Kind::Class | Kind::ObjectProperty => 7,
        Kind::SubClassOf | Kind::EquivalentClasses => 8,
        Kind::ObjectIntersectionOf | Kind::ObjectSomeValuesFrom => 9,
        Kind::Short => 10,
        Kind::Full => 11,
        Kind::PrefixName => 12,
        Kind::Unlisted => 13,
    }
}

// Entries of the table that are no states: the token is refused, or it is a word that is not listed.
const NO: u8 = 90;

const UN: u8 = 91;

// The state of a level that asks for nothing more.
const DONE: u8 = 1;

// A row for each state, by what it asks for next, and a column for each sort of token: the state after it. States stay numbers, those of
// the rows: with names, no row would fit a line, and the table is what is read.
static MOVES: [[u8; 14]; 28] = [
    [NO, NO, NO, NO, 0, 1, NO, NO, NO, NO, NO, NO, NO, NO], // 0 start
    [NO, NO, NO, NO, NO, NO, NO, NO, NO, NO, NO, NO, NO, NO], // 1 the end
    [NO, 3, NO, NO, NO, NO, NO, NO, NO, NO, NO, NO, NO, NO], // 2 Prefix
    [NO, NO, NO, NO, NO, NO, NO, NO, NO, NO, NO, NO, 4, NO], // 3 its prefix name
    [NO, NO, NO, 5, NO, NO, NO, NO, NO, NO, NO, NO, NO, NO], // 4 its `=`
    [NO, NO, NO, NO, NO, NO, NO, NO, NO, NO, NO, 6, NO, NO], // 5 its full name
    [NO, NO, 1, NO, NO, NO, NO, NO, NO, NO, NO, NO, NO, NO], // 6 the last `)` of a construct
    [NO, 8, NO, NO, NO, NO, NO, NO, NO, NO, NO, NO, NO, NO], // 7 Ontology
    [NO, NO, 1, NO, NO, NO, 10, NO, 10, NO, 9, 9, NO, UN], // 8 its name
    [NO, NO, 1, NO, NO, NO, 10, NO, 10, NO, 10, 10, NO, UN], // 9 its version
    [NO, NO, 1, NO, NO, NO, 10, NO, 10, NO, NO, NO, NO, UN], // 10 its items
    [NO, 12, NO, NO, NO, NO, NO, NO, NO, NO, NO, NO, NO, NO], // 11 Declaration
    [NO, NO, NO, NO, NO, NO, NO, 6, NO, NO, NO, NO, NO, UN], // 12 its entity
    [NO, 14, NO, NO, NO, NO, NO, NO, NO, NO, NO, NO, NO, NO], // 13 Class, ObjectProperty
    [NO, NO, NO, NO, NO, NO, NO, NO, NO, NO, 6, 6, NO, NO], // 14 its name
    [NO, 16, NO, NO, NO, NO, NO, NO, NO, NO, NO, NO, NO, NO], // 15 SubClassOf
    [NO, NO, NO, NO, NO, NO, NO, NO, NO, 17, 17, 17, NO, UN], // 16 its first class
    [NO, NO, NO, NO, NO, NO, NO, NO, NO, 6, 6, 6, NO, UN], // 17 the last class of a construct
    [NO, 19, NO, NO, NO, NO, NO, NO, NO, NO, NO, NO, NO, NO], // 18 EquivalentClasses
    [NO, NO, NO, NO, NO, NO, NO, NO, NO, 20, 20, 20, NO, UN], // 19 its first class
    [NO, NO, NO, NO, NO, NO, NO, NO, NO, 21, 21, 21, NO, UN], // 20 its second
    [NO, NO, 1, NO, NO, NO, NO, NO, NO, UN, UN, UN, NO, UN], // 21 no third, `)`
    [NO, 23, NO, NO, NO, NO, NO, NO, NO, NO, NO, NO, NO, NO], // 22 ObjectIntersectionOf
    [NO, NO, NO, NO, NO, NO, NO, NO, NO, 24, 24, 24, NO, UN], // 23 its first class
    [NO, NO, NO, NO, NO, NO, NO, NO, NO, 25, 25, 25, NO, UN], // 24 its second
    [NO, NO, 1, NO, NO, NO, NO, NO, NO, 25, 25, 25, NO, UN], // 25 more, or `)`
    [NO, 27, NO, NO, NO, NO, NO, NO, NO, NO, NO, NO, NO, NO], // 26 ObjectSomeValuesFrom
    [NO, NO, NO, NO, NO, NO, NO, NO, NO, NO, 17, 17, NO, UN], // 27 its role
];

// What a token of kind k does in a state: the state after it, or why it is refused.
fn next(state: u8, k: Kind) -> Result<u8, Reason>
    ensures { MatchResult result (λ q. (q ≡ next state (kind_number k)) × (q < 80)) (λ why. 80 + reason_number why ≡ next state (kind_number k)) }
{
    let row = usize::from(state);
    if MOVES.len() <= row {
        return Err(Reason::Syntax);
    }
    match MOVES[row][column(k)] {
        NO => Err(Reason::Syntax),
        UN => Err(Reason::Unlisted),
        after => Ok(after),
    }
}

// The state at the start of the body of a listed word; none for another token.
#[tactic(auto, unfolding(crate::specs::Levels::opener, crate::specs::Levels::inner, crate::specs::Levels::inners))]
fn body(k: Kind) -> Option<u8>
    ensures { MatchOption result (opener (kind_number k) ≡ false) (λ q. (opener (kind_number k) ≡ true) × (q ≡ inner (kind_number k))) }
{
    match k {
        Kind::Prefix => Some(2),
        Kind::Ontology => Some(7),
        Kind::Declaration => Some(11),
        Kind::Class | Kind::ObjectProperty => Some(13),
        Kind::SubClassOf => Some(15),
        Kind::EquivalentClasses => Some(18),
        Kind::ObjectIntersectionOf => Some(22),
        Kind::ObjectSomeValuesFrom => Some(26),
        _ => None,
    }
}

// The depth behind a token of kind k. Here a listed word opens a level; in `owl_class::deeper` it is the bracket that opens.
#[tactic(auto, unfolding(crate::specs::Levels::deeper))]
fn deeper(k: Kind, depth: usize) -> usize
    requires { depth < usize.MAX }
    ensures { result ≡ deeper (kind_number k) depth }
{
    if body(k).is_some() {
        depth + 1
    } else if k == Kind::Close {
        depth.saturating_sub(1)
    } else {
        depth
    }
}

impl Levels {
    // A token of kind k stands in a level, which judges it if it is one of the block.
    fn step(&mut self, level: usize, k: Kind) -> Result<(), Reason>
        ensures block { self.new.block ≡ self.old.block }
        ensures judged { MatchResult result
            (λ _. Updated self.old.block level (λ q. next q (kind_number k)) self.old.states self.new.states × (level / 4096 ≡ self.old.block → next (get_or self.old.states (level % 4096) 0) (kind_number k) < 80))
            (λ why. (level / 4096 ≡ self.old.block) × (next (get_or self.old.states (level % 4096) 0) (kind_number k) ≡ 80 + reason_number why)) }
    {
        if level / LEVELS == self.block {
            self.states[level % LEVELS] = next(self.states[level % LEVELS], k)?;
        }
        Ok(())
    }

    // The level behind a token of kind k begins, if the token has a body and the level is one of the block.
    fn open(&mut self, level: usize, k: Kind)
        ensures block { self.new.block ≡ self.old.block }
        ensures begun { Updated self.old.block level (opened (kind_number k)) self.old.states self.new.states }
    {
        if let Some(state) = body(k)
            && level / LEVELS == self.block
        {
            self.states[level % LEVELS] = state;
        }
    }
}

// One reading, for one block. The first refusal in the blocks before it is given, if there is one.
fn read(s: &[u8], block: usize, best: End) -> End
    requires { Clear s.now block best.at × (Refused s.now best.at (verdict_of best.verdict) ⊎ (length s.now < best.at)) }
    ensures { Found s.now (block + 1) result.at (verdict_of result.verdict) result.most }
{
    let mut levels = Levels {
        block,
        states: [0; LEVELS],
    };
    let mut at = 0;
    let mut depth = 0;
    let mut most = 0;
    // Each turn passes a token, so that no range counts the turns.
    while at < best.at {
        let t = owl_token::token_at(s, at);
        if t.kind == Kind::End {
            let verdict = if depth == 0 && levels.states[0] == DONE {
                Ok(())
            } else {
                Err(Refusal {
                    reason: Reason::Syntax,
                    place: s.len(),
                })
            };
            return End { at, verdict, most };
        }
        if let Err(reason) = levels.step(depth, t.kind) {
            return End {
                at,
                verdict: Err(Refusal {
                    reason,
                    place: t.place,
                }),
                most,
            };
        }
        levels.open(depth + 1, t.kind);
        depth = deeper(t.kind, depth);
        most = most.max(depth);
        at = t.end;
    }
    End { most, ..best }
}

pub fn check(s: &[u8]) -> Result<(), Refusal>
    ensures { verdict_of result ≡ checked s.now }
{
    let mut end = End {
        at: s.len() + 1,
        verdict: Ok(()),
        most: 0,
    };
    let mut block = 0;
    // How many blocks there are is known only as they are read.
    loop {
        end = read(s, block, end);
        if end.most / LEVELS <= block {
            return end.verdict;
        }
        block += 1;
    }
}
