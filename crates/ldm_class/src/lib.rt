//! Classes of products, as sites ask for them, and the rules of access: which products a host may be fed, and which
//! it may push.
//!
//! Patterns are those of the crate `regex` on bytes. They are built once, where a class is built or a rule added. A
//! session that asks for many products has a `ClassMatcher` and a `HostPolicy`, which search without taking memory
//! again.
#![tactic(auto)]

mod answers;
mod asking;
mod class;
mod class_matcher;
mod host_policy;
mod policy;
mod reduce;
mod rule;
mod search;
mod verdict;

pub use answers::{Reduced, Verdict};
pub use asking::{asked_class, is_same_class};
pub use class::{BUILT_MOST, Class, ClassFault};
pub use class_matcher::{ClassMatcher, MATCHERS_MOST};
pub use host_policy::HostPolicy;
pub use policy::{Policy, PolicyFault};
pub use reduce::same_is_left_whole;
