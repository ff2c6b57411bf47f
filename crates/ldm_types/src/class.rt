//! Classes of products, as a site asks for them.
ghost use Rattle.std.specs.Prelude.{◌≡◌};

use crate::feed::Feed;
use crate::limits::{LONGEST_PATTERN, MOST_SPECS};
use crate::micros::Micros;
use crate::texts::copied;
use arrayvec::ArrayVec;

/// Which products are wanted: those whose feedtype meets `feed` and in whose ident `pattern` is found.
///
/// The default wants none: its feedtypes are the empty set.
#[derive(Clone, Debug, Default, PartialEq, Eq, Drop)]
pub struct Spec {
    /// The feedtypes: a product needs one of them.
    pub feed: Feed,
    /// A regular expression of at most 255 bytes.
    pub pattern: ArrayVec<u8, LONGEST_PATTERN>,
}

impl Spec {
    /// The same specification once more. It takes no memory.
    pub fn copy(&self) -> Spec
        ensures { result ≡ self.now }
    {
        Spec {
            feed: self.feed,
            pattern: copied(&self.pattern),
        }
    }
}

/// The products inserted from `from` to `to`, both included, that one of at most 32 specifications wants.
#[derive(Clone, Debug, PartialEq, Eq, Drop)]
pub struct ClassSpec {
    /// The earliest instant of insertion.
    pub from: Micros,
    /// The latest instant of insertion. Before `from` it leaves no product.
    pub to: Micros,
    /// The specifications: a product needs to be wanted by one of them.
    pub specs: ArrayVec<Spec, MOST_SPECS>,
}

impl ClassSpec {
    /// The same class once more. It takes no memory.
    pub fn copy(&self) -> ClassSpec
        ensures { result ≡ self.now }
    {
        ClassSpec {
            from: self.from,
            to: self.to,
            specs: copied_specs(&self.specs),
        }
    }
}

fn copied_specs(specs: &ArrayVec<Spec, MOST_SPECS>) -> ArrayVec<Spec, MOST_SPECS>
    ensures { result.items ≡ specs.now.items }
{
    let mut copy = ArrayVec::new();
    for spec in specs.as_slice() {
        copy.push(spec.copy());
    }
    copy
}
