//! What an audit finds.

use dwg_base::Handle;
use dwg_kinds::Field;

/// A rule of the audit (a rule of this project, as all of them are).
#[derive(Clone, Copy, Debug, PartialEq, Eq)]
pub enum Rule {
    /// A drawing has exactly one table of blocks that is read whole.
    Control,
    /// What an object refers to is there, and is of the kind that the field needs.
    Resolve,
    /// An object is claimed once, by its owner.
    Claim,
    /// The entities of a block stand in one chain, from its first to its last.
    Chain,
    /// The owners of an object lead to a root.
    Path,
}

/// A failure of a rule.
#[derive(Clone, Copy, Debug, PartialEq, Eq)]
pub struct Finding {
    /// The object that fails it; null for the whole drawing.
    pub handle: Handle,
    /// The rule.
    pub rule: Rule,
    /// The field of a reference that leads nowhere or to something else; `None` for every other rule.
    pub field: Option<Field>,
    /// The place of that reference in a field that is a list; for `Control` the number of tables, and for `Claim` the number of
    /// claims.
    pub position: u64,
    /// Where the reference leads; for `Claim` and `Path` the owner, for `Chain` the last entity, if any; else null.
    pub target: Handle,
}
