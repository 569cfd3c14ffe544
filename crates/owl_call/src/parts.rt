// How many of each the table of a text has.

ghost use Rattle.std.specs.Prelude.{◌≤◌};
ghost use Rattle.bounds.specs.Bounds.{max_constants, max_roles, max_variables, max_restrictions};

// How many constants, roles, open names, variables and rows there are, where none of their bounds is passed.
#[derive(Clone, Copy)]
pub struct Totals {
    pub constants: usize,
    pub roles: usize,
    pub opens: usize,
    pub variables: usize,
    pub rows: usize,
    ghost few: { (constants ≤ max_constants) × (roles ≤ max_roles) × (variables ≤ max_variables) × (rows ≤ max_restrictions) },
}
