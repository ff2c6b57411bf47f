//! Which products are due.
ghost use Rattle.std.specs.Prelude.{◌≡◌};
ghost use Rattle.ldm_sender.specs.Asked.{Asked, IsAskedOf};
ghost use Rattle.ldm_sender.specs.Due.{is_due};

use ldm_class::{ClassMatcher, HostPolicy};
use ldm_types::{Info, Micros};

/// Whether a product that was inserted at that time is due: that is no later than `to`, up to which the class asks; the
/// class wants it; and the rules let the host have it.
pub fn is_due(
    class: &mut ClassMatcher<'_>,
    rules: &mut HostPolicy<'_>,
    to: Micros,
    time: Micros,
    info: &Info,
) -> bool
    requires { to ≡ class.old.to }
    ensures due { (asked : Asked) → IsAskedOf asked class.old rules.old → result ≡ is_due asked time info.now }
    ensures same_class { class.new ≡ class.old }
    ensures same_rules { rules.new ≡ rules.old }
{
    if time.get() > to.get() || !class.wants(info) {
        return false;
    }
    rules.verdict(info).is_yes()
}
