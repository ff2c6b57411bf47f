//! The specifications of a class, each by itself.
ghost use Rattle.std.specs.Prelude.{◌≡◌, is_some};
ghost use Rattle.std.specs.Option.{option_map};
ghost use Rattle.ldm_class.specs.Classes.{is_resumption, signature_in};

use ldm_pattern::BoundedPattern;
use ldm_signature::read_hex;
use ldm_types::{Feed, Signature, Spec};

/// A specification whose pattern is built.
#[derive(Drop)]
pub struct Search {
    pub feed: Feed,
    pub pattern: BoundedPattern,
}

/// The signature that a specification names, if it names one in place of a pattern.
pub fn resumption(spec: &Spec) -> Option<Signature>
    ensures value { option_map (λ signature. signature.0) result ≡ signature_in spec.now }
    ensures is { is_some result ≡ is_resumption spec.now }
{
    if spec.feed != Feed(0) {
        return None;
    }
    read_hex(spec.pattern.as_slice().strip_prefix(b"SIG=")?)
}
