// A text, a side of lines, and the lines that were passed.

ghost use Rattle.std.specs.Prelude.{◌≤◌};
ghost use Rattle.bounds.specs.Bounds.{max_lines};

// A text, and how many open names it declares; the fresh variables are numbered behind these.
#[derive(Clone, Copy)]
pub struct Source<'a> {
    pub text: &'a [u8],
    pub opens: usize,
}

// A side of lines: a fresh variable and its number, or a class expression and the byte behind which it begins.
#[derive(Clone, Copy)]
pub enum Side {
    Fresh(usize),
    Class(usize),
}

// The lines that were passed, no more than may be: how many there are, and the byte behind them in the buffer.
#[derive(Clone, Copy)]
pub struct Passed {
    pub lines: usize,
    pub end: usize,
    ghost few: { lines ≤ max_lines },
}
