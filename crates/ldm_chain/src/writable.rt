//! A class as it stands in memory can be written into a message.
ghost use Rattle.ldm_relay.specs.Fits.{ClassFits, SpecFits};

use ldm_types::{ClassSpec, Spec};

// Each field of a class is within the bounds of its type. Contracts alone ask for it.
pub(crate) fn class_fits(class: &ClassSpec)
    ensures { ClassFits class.now }
{
    for spec in class.specs.as_slice() {
        spec_fits(spec);
    }
    let _instants = (class.from.get(), class.to.get());
}

fn spec_fits(spec: &Spec)
    ensures { SpecFits spec.now }
{
    let _feed = spec.feed.0;
    let _len = spec.pattern.len();
}
