//! A variable that a name may mean: DWARF 4, section 4.1.

ghost use Rattle.std.specs.Prelude.{◌≡◌};
ghost use Rattle.om_names.specs.ByName.{interval_in};
ghost use Rattle.om_names.specs.Variables as spec;

use crate::fixed::Fixed;
use crate::held::Held;
use crate::kind::Kind;
use crate::local::Local;
use om_base::Interval;
use om_eval::VariableName;

/// A variable that has a name.
#[derive(Debug, Drop)]
pub enum Variable<'a> {
    /// One outside all functions, at one address throughout.
    Fixed(Fixed<'a>),
    /// One of a function's own.
    Local(Local<'a>),
}

impl<'a> Variable<'a> {
    /// Its name.
    pub fn name(&self) -> VariableName<'a>
        ensures { result ≡ spec.name_of self.now }
    {
        match self {
            Variable::Fixed(fixed) => fixed.name.again(),
            Variable::Local(local) => local.name.again(),
        }
    }

    /// Its numbers, where its type is scalar.
    fn kind(&self) -> Option<Kind>
        ensures { result ≡ spec.kind_of self.now }
    {
        match self {
            Variable::Fixed(fixed) => fixed.kind,
            Variable::Local(local) => local.kind,
        }
    }

    /// The least and the greatest of them.
    pub fn interval(&self) -> Option<Interval>
        ensures { result ≡ interval_in self.now }
    {
        match self.kind() {
            Some(kind) => kind.interval(),
            None => None,
        }
    }

    /// How many entries a local one stands below.
    pub fn depth(&self) -> u32
        ensures { result ≡ spec.depth_of self.now }
    {
        match self {
            Variable::Fixed(_) => 0,
            Variable::Local(local) => local.depth,
        }
    }

    /// Where a local one is, if its type is scalar.
    pub fn held(&self) -> Option<Held>
        ensures { result ≡ spec.local_held self.now }
    {
        match self {
            Variable::Fixed(_) => None,
            Variable::Local(local) => local.held(),
        }
    }

    /// A copy of it, where it is a fixed one.
    pub fn fixed(&self) -> Option<Fixed<'a>>
        ensures { result ≡ spec.if_fixed self.now }
    {
        match self {
            Variable::Fixed(fixed) => Some(fixed.again()),
            Variable::Local(_) => None,
        }
    }
}
