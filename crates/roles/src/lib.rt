// The order of a table's roles, worked out once: for each role a small mask of the roles that lie under it.
//
// Without role rows each role lies under itself alone. One role row more, narrower n and wider w, puts what lies under n under each role
// that w lies under.
#![tactic(auto)]

ghost use Rattle.std.specs.Prelude.{◌<◌};
ghost use Rattle.bounds.specs.Bounds.{max_roles};
ghost use Rattle.table.specs.Reading.{table_of};
ghost use Rattle.roles.specs.Under.{Alone, Widened, RolesUnder};

use bounds::{MAX_ROLES, RoleMask, SetNumber};
use table::Readable;

// For each role the mask of the roles that lie under it.
#[derive(Clone, Copy)]
pub struct Under {
    pub mask: [RoleMask; MAX_ROLES],
}

impl Under {
    // Each role under itself alone.
    fn alone() -> Under
        ensures { Alone result.mask }
    {
        let mut mask: [RoleMask; MAX_ROLES] = [0; MAX_ROLES];
        for (s, m) in mask.iter_mut().enumerate() {
            *m = 1 << s;
        }
        Under { mask }
    }

    // What lies under the narrower role lies from now on under each that the wider one lies under.
    fn widen(&mut self, narrower: usize, wider: usize)
        requires { (narrower < max_roles) × (wider < max_roles) }
        ensures { Widened self.old.mask narrower wider self.new.mask }
    {
        let near = self.mask[narrower];
        for m in self.mask.iter_mut() {
            if bounds::has_bit(SetNumber::from(*m), wider) {
                *m |= near;
            }
        }
    }
}

// The roles that lie under each role of a table.
pub fn roles_under(table: Readable) -> Under
    ensures { RolesUnder (table_of table.entry.bytes.now) result.mask }
{
    let mut under = Under::alone();
    for k in (0..usize::from(table.header().q)).rev() {
        let narrower = usize::from(table.narrower_of(k));
        let wider = usize::from(table.wider_of(k));
        under.widen(narrower, wider);
    }
    under
}
