// The tokens of a text. There is no token list: a token is found from a position, by its bytes alone.
#![tactic(auto)]

ghost use Rattle.std.specs.Prelude.{◌≡◌, true, false, ◌+◌, ◌*◌, ◌≤◌, ◌<◌, min, T, ltb, length, get_or, drop, MatchOption};
ghost use Rattle.std.specs.List.{prefix_len};
ghost use Rattle.el.specs.Test.{every_of};
ghost use Rattle.owl.specs.Naming.{same_bytes};
ghost use Rattle.owl.specs.Token.{is_plain, byte_class, between, run_length, shapes, shape, up_to_close, opens_after, mark_kinds, place_at, kind_at, end_at};
ghost use Rattle.owl_token.specs.Keyword.{ends_line, run_of, keyword_kind, IsListed, other_kind};
ghost use Rattle.owl_token.specs.Kind.{kind_number};
ghost use Rattle.owl_token.specs.Run.{class_number, shape_number};

// What a token is. The number of each is its place here, from 0.
#[derive(Clone, Copy, PartialEq, Eq)]
pub enum Kind {
    // No token is left.
    End,
    Open,
    Close,
    Equals,
    Prefix,
    Ontology,
    Declaration,
    Class,
    ObjectProperty,
    SubClassOf,
    EquivalentClasses,
    ObjectIntersectionOf,
    ObjectSomeValuesFrom,
    // A short name.
    Short,
    // A full name, `<` to `>`.
    Full,
    PrefixName,
    // A word that is not listed, before `(`.
    Unlisted,
    Other,
}

// The kind with a number; one above 17, which no token has, becomes `Other`.
impl From<u8> for Kind {
    ghost from_gives = { λ n r. kind_number r ≡ min n 17 };

    fn from(n: u8) -> Kind {
        match n {
            0 => Kind::End,
            1 => Kind::Open,
            2 => Kind::Close,
            3 => Kind::Equals,
            4 => Kind::Prefix,
            5 => Kind::Ontology,
            6 => Kind::Declaration,
            7 => Kind::Class,
            8 => Kind::ObjectProperty,
            9 => Kind::SubClassOf,
            10 => Kind::EquivalentClasses,
            11 => Kind::ObjectIntersectionOf,
            12 => Kind::ObjectSomeValuesFrom,
            13 => Kind::Short,
            14 => Kind::Full,
            15 => Kind::PrefixName,
            16 => Kind::Unlisted,
            _ => Kind::Other,
        }
    }
}

// A token: its kind, where it begins and where the text goes on.
#[derive(Clone, Copy)]
pub struct Token {
    pub kind: Kind,
    pub place: usize,
    pub end: usize,
}

// What a byte of a run is, as far as the run's shape goes by it.
#[derive(Clone, Copy, PartialEq, Eq)]
enum Class {
    // A letter, a digit or a byte from 128.
    Plain,
    Underscore,
    // `-` or `.`.
    Dash,
    Colon,
    Odd,
}

// What a run is, as far as it goes.
#[derive(Clone, Copy)]
pub enum Shape {
    Empty,
    // `_` alone.
    Lone,
    Word,
    // It ends in its first colon.
    PrefixName,
    Short,
    Neither,
}

// A run: where it ends, and what it is.
#[derive(Clone, Copy)]
pub struct Run {
    pub end: usize,
    pub shape: Shape,
}

// Letters, digits and bytes from 128, of which texts mostly consist. A bit of the numbers stands for each byte:
// with `is_ascii_alphanumeric` in their place, the check of a text takes 3.5 in a hundred more instructions.
fn is_plain(b: u8) -> bool
    ensures { result ≡ is_plain b }
{
    if 63 < b {
        if 127 < b {
            return true;
        }
        let letters: u64 = 0x07FFFFFE07FFFFFE;
        return (letters >> (b - 64)) % 2 == 1;
    }
    let digits: u64 = 0x03FF000000000000;
    (digits >> b) % 2 == 1
}

// Whether a byte is one of a run. A bit of the number stands for each byte that is not. With `b >= 64 ||`,
// `token_at` saves more registers in each call.
fn in_run(b: u8) -> bool
    ensures { result ≡ ltb (byte_class b) 5 }
{
    if 63 < b {
        return true;
    }
    let others: u64 = 0x7000030D00002600;
    (others >> b) % 2 == 0
}

// The class of a byte of a run that is not plain.
#[tactic(auto, unfolding(owl::specs::Token::is_plain, owl::specs::Token::byte_class))]
fn odd_class(b: u8) -> Class
    requires { (is_plain b ≡ false) × (ltb (byte_class b) 5 ≡ true) }
    ensures { class_number result ≡ byte_class b }
{
    match b {
        b'_' => Class::Underscore,
        b'-' | b'.' => Class::Dash,
        b':' => Class::Colon,
        _ => Class::Odd,
    }
}

#[tactic(auto, unfolding(crate::specs::Keyword::ends_line))]
fn ends_line(b: u8) -> bool
    ensures { result ≡ ends_line b }
{
    b == b'\n' || b == b'\r'
}

// What a byte does between tokens (c is 0) or in a comment (1): 0 or 1 again, or 2, a token begins. Numbers, as with
// an `Option<bool>` in their place the check of a text takes 2 in a hundred more instructions. Most bytes that begin a
// token are above all that do anything else, so that is asked first.
fn between(c: u8, b: u8) -> u8
    requires { c < 2 }
    ensures { (result ≡ between c b) × (result < 3) }
{
    if b'#' < b {
        return if c == 1 { 1 } else { 2 };
    }
    if ends_line(b) {
        return 0;
    }
    if c == 1 {
        return 1;
    }
    if b == b' ' {
        return 0;
    }
    if b == b'\t' {
        return 0;
    }
    if b == b'#' {
        return 1;
    }
    2
}

// Where the next token begins.
fn skip(s: &[u8], at: usize) -> usize
    requires { at ≤ length s.now }
    ensures { (result ≡ place_at s.now at) × (result ≤ length s.now) }
{
    let mut c = 0;
    for i in at..s.len() {
        c = between(c, s[i]);
        if c == 2 {
            return i;
        }
    }
    s.len()
}

// The shape of a run after one more byte.
#[tactic(auto, unfolding(owl::specs::Token::shapes))]
fn shape_after(shape: Shape, class: Class) -> Shape
    ensures { shape_number result ≡ get_or shapes (shape_number shape * 5 + class_number class) 5 }
{
    match (class, shape) {
        (Class::Odd, _) | (_, Shape::Neither) => Shape::Neither,
        (Class::Underscore, Shape::Empty) => Shape::Lone,
        (Class::Colon, Shape::Empty | Shape::Word) => Shape::PrefixName,
        (Class::Colon, Shape::Lone) | (Class::Dash, Shape::PrefixName) => Shape::Neither,
        (_, Shape::Empty | Shape::Lone | Shape::Word) => Shape::Word,
        (_, Shape::PrefixName | Shape::Short) => Shape::Short,
    }
}

// How many plain bytes stand at the front.
fn plain_count(s: &[u8]) -> usize
    ensures { result ≡ prefix_len is_plain s.now }
{
    s.iter().take_while(|b| is_plain(**b)).count()
}

// The run at a position. Its shape does not change from one plain byte to the next.
fn run_at(s: &[u8], at: usize) -> Run
    requires { at ≤ length s.now }
    ensures { (result.end ≡ at + run_length (drop at s.now)) × (result.end ≤ length s.now) × (shape_number result.shape ≡ shape 0 (run_of (drop at s.now))) }
{
    let mut end = at;
    let mut shape = Shape::Empty;
    while end < s.len() {
        let b = s[end];
        if is_plain(b) {
            shape = shape_after(shape, Class::Plain);
            end += 1;
            end += plain_count(&s[end..]);
        } else if in_run(b) {
            shape = shape_after(shape, odd_class(b));
            end += 1;
        } else {
            break;
        }
    }
    Run { end, shape }
}

// Whether the run at the front is this word, of which every byte is one of a run.
fn is_word(s: &[u8], w: &[u8]) -> bool
    requires { T (every_of (λ b. ltb (byte_class b) 5) w.now) }
    ensures { result ≡ same_bytes (run_of s.now) w.now }
{
    if s.len() < w.len() {
        return false;
    }
    for i in 0..w.len() {
        if s[i] != w[i] {
            return false;
        }
    }
    s.len() == w.len() || !in_run(s[w.len()])
}

// The listed word that stands at the front: its kind and its length. A test for each, before a run is read: where a
// read run is sought in a table of words instead, the check of a text takes 19 in a hundred more instructions.
fn listed(s: &[u8]) -> Option<(Kind, usize)>
    ensures { MatchOption result (keyword_kind (run_of s.now) ≡ 0) (λ word. IsListed (run_of s.now) (kind_number word.0) word.1) }
{
    if s.is_empty() || s[0] < b'C' {
        return None; // each begins with a capital from C on
    }
    if is_word(s, b"Prefix") {
        return Some((Kind::Prefix, 6));
    }
    if is_word(s, b"Ontology") {
        return Some((Kind::Ontology, 8));
    }
    if is_word(s, b"Declaration") {
        return Some((Kind::Declaration, 11));
    }
    if is_word(s, b"Class") {
        return Some((Kind::Class, 5));
    }
    if is_word(s, b"ObjectProperty") {
        return Some((Kind::ObjectProperty, 14));
    }
    if is_word(s, b"SubClassOf") {
        return Some((Kind::SubClassOf, 10));
    }
    if is_word(s, b"EquivalentClasses") {
        return Some((Kind::EquivalentClasses, 17));
    }
    if is_word(s, b"ObjectIntersectionOf") {
        return Some((Kind::ObjectIntersectionOf, 20));
    }
    if is_word(s, b"ObjectSomeValuesFrom") {
        return Some((Kind::ObjectSomeValuesFrom, 20));
    }
    None
}

// Where the first `>` is. A `while`, as a `for` or `position` takes two more instructions for each byte.
fn close_at(s: &[u8], at: usize) -> usize
    requires { at ≤ length s.now }
    ensures { (result ≡ at + up_to_close (drop at s.now)) × (result ≤ length s.now) }
{
    let mut i = at;
    while i < s.len() {
        if s[i] == b'>' {
            return i;
        }
        i += 1;
    }
    i
}

#[tactic(auto, unfolding(owl::specs::Token::is_plain, owl::specs::Token::byte_class, owl::specs::Token::mark_kinds))]
fn mark_kind(b: u8) -> Kind
    ensures { kind_number result ≡ get_or mark_kinds (byte_class b) 17 }
{
    match b {
        b'(' => Kind::Open,
        b')' => Kind::Close,
        b'=' => Kind::Equals,
        _ => Kind::Other,
    }
}

// Whether the next token is `(`.
fn opens_after(s: &[u8], at: usize) -> bool
    requires { at ≤ length s.now }
    ensures { result ≡ opens_after (drop at s.now) }
{
    s.get(skip(s, at)) == Some(&b'(')
}

// The kind of a run that is no listed word.
#[tactic(auto, unfolding(crate::specs::Keyword::other_kind))]
fn run_kind(s: &[u8], run: Run) -> Kind
    requires { run.end ≤ length s.now }
    ensures { kind_number result ≡ other_kind (shape_number run.shape) (opens_after (drop run.end s.now)) }
{
    match run.shape {
        Shape::PrefixName => Kind::PrefixName,
        Shape::Short => Kind::Short,
        Shape::Neither => Kind::Other,
        Shape::Empty | Shape::Lone | Shape::Word if opens_after(s, run.end) => Kind::Unlisted,
        Shape::Empty | Shape::Lone | Shape::Word => Kind::Other,
    }
}

// The token that stands at a byte or after it.
pub fn token_at(s: &[u8], at: usize) -> Token
    requires { at ≤ length s.now }
    ensures { (kind_number result.kind ≡ kind_at s.now at) × (result.place ≡ place_at s.now at) × (result.end ≡ end_at s.now at) × (result.end ≤ length s.now) }
{
    let place = skip(s, at);
    if place == s.len() {
        return Token {
            kind: Kind::End,
            place,
            end: place,
        };
    }
    let b = s[place];
    if in_run(b) {
        if let Some((kind, size)) = listed(&s[place..]) {
            return Token {
                kind,
                place,
                end: place + size,
            };
        }
        let run = run_at(s, place);
        return Token {
            kind: run_kind(s, run),
            place,
            end: run.end,
        };
    }
    if b != b'<' {
        return Token {
            kind: mark_kind(b),
            place,
            end: place + 1,
        };
    }
    let close = close_at(s, place + 1);
    if close == s.len() {
        return Token {
            kind: Kind::Other,
            place,
            end: place + 1,
        };
    }
    Token {
        kind: Kind::Full,
        place,
        end: close + 1,
    }
}
