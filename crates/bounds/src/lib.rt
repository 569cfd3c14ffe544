// The bounds of a table, and the types that hold what they bound. No other crate writes these numbers.
#![tactic(auto)]

ghost use Rattle.std.specs.Prelude.{◌≡◌, ◌<◌};
ghost use Rattle.std.specs.Int.Count.{count_trailing_zeros};
ghost use Rattle.el.specs.Test.{bit};
ghost use Rattle.bounds.specs.Bounds.{set_bits};

// A set of atoms: bit i says that atom i is in.
pub type SetNumber = u64;

// A mask with a bit for each variable.
pub type VariableMask = u32;

// A mask with a bit for each restriction row, as wide as a set number, so that it can be held against one.
pub type RowMask = SetNumber;

// A mask with a bit for each role.
pub type RoleMask = u16;

// Where a byte of a readable table stands.
pub type Place = u16;

// How many nodes, and how many are allowed.
pub type Count = u32;

pub const MAX_CONSTANTS: usize = 32;

pub const MAX_RESTRICTIONS: usize = 32;

// Constants and restrictions together.
pub const MAX_ATOMS: usize = 56;

pub const MAX_ROLES: usize = 16;

pub const MAX_VARIABLES: usize = 24;

pub const MAX_ROLE_ROWS: usize = 32;

pub const MAX_LINES: usize = 64;

pub const MAX_LEFT: usize = 8;

// The bytes of a set number in the output.
pub const SET_BYTES: usize = 8;

// How many bits of a set number lie below its lowest that is set; all of them, where none is.
pub fn low_zeros(mask: SetNumber) -> usize
    ensures { result ≡ count_trailing_zeros set_bits mask }
{
    u64::trailing_zeros(mask) as usize
}

// Is bit i of the mask set?
pub fn has_bit(mask: SetNumber, i: usize) -> bool
    requires { i < set_bits }
    ensures { result ≡ bit i mask }
{
    (mask >> i) % 2 == 1
}
