//! What is asked for, and whether two classes are the same.
ghost use Rattle.std.specs.Prelude.{◌≡◌};
ghost use Rattle.std.specs.List.{list_all, zip};
ghost use Rattle.std.specs.Option.{option_map};
ghost use Rattle.ldm_class.specs.Asking.{asked_class, same_class, same_spec, same_specs, resuming as resuming_spec};

use arrayvec::ArrayVec;
use ldm_types::{ClassSpec, Feed, MOST_SPECS, Signature, Spec};

// The specification that names a product to go on behind.
fn resuming(signature: Signature) -> Spec
    ensures { result ≡ resuming_spec signature.0 }
{
    let mut pattern = ArrayVec::new();
    let mut digits = [0; 32];
    if hex::encode_to_slice(signature.0.as_slice(), &mut digits).is_err() {
        unreachable!();
    }
    if pattern.try_extend_from_slice(b"SIG=").is_err()
        || pattern.try_extend_from_slice(&digits).is_err()
    {
        unreachable!();
    }
    Spec {
        feed: Feed(0),
        pattern,
    }
}

/// The class that is asked for: with the specification of the last product at its end, where there is one and there is
/// room.
pub fn asked_class(class: &ClassSpec, last: Option<Signature>) -> ClassSpec
    ensures { result ≡ asked_class class.now (option_map (λ signature. signature.0) last) }
{
    let mut asked = class.copy();
    if let Some(signature) = last {
        if asked.specs.len() < MOST_SPECS {
            asked.specs.push(resuming(signature));
        }
    }
    asked
}

fn is_same_spec(one: &Spec, other: &Spec) -> bool
    ensures { result ≡ same_spec one.now other.now }
{
    one.feed.0 == other.feed.0 && one.pattern.as_slice() == other.pattern.as_slice()
}

fn are_same_specs(ones: &[Spec], others: &[Spec]) -> bool
    ensures { result ≡ same_specs ones.now others.now }
{
    ones.len() == others.len() && agree(ones, others)
}

// Whether those at each place are the same.
fn agree(ones: &[Spec], others: &[Spec]) -> bool
    ensures { result ≡ list_all (λ pair. same_spec pair.0 pair.1) (zip ones.now others.now) }
{
    ones.iter()
        .zip(others.iter())
        .all(|(one, other)| is_same_spec(one, other))
}

/// Whether two classes are the same.
pub fn is_same_class(one: &ClassSpec, other: &ClassSpec) -> bool
    ensures { result ≡ same_class one.now other.now }
{
    one.from.get() == other.from.get()
        && one.to.get() == other.to.get()
        && are_same_specs(one.specs.as_slice(), other.specs.as_slice())
}
