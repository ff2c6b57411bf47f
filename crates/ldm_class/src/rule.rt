//! Lines of a policy.
ghost use Rattle.std.specs.Prelude.{◌≡◌, IfOk};
ghost use Rattle.ldm_class.specs.Access.{found_or, is_about, meets, passes};

use ldm_pattern::Pattern;
use ldm_types::{Feed, Info, OutOfMemory};
use std::alloc::Global;
use std::marker::Model;

/// What a rule says of hosts and products. A pattern that is left out asks nothing.
#[derive(Drop)]
pub struct Rule {
    pub feed: Feed,
    pub host: Option<Pattern>,
    pub ok: Option<Pattern>,
    pub not: Option<Pattern>,
}

impl Model for Rule {
    ghost use Rattle.ldm_class.specs.Rules.{Rule};

    ghost Value = { Rule };

    ghost use Rattle.ldm_class.specs.RuleView.{rule_of};

    ghost view = { rule_of };
}

impl Rule {
    /// Whether its host pattern is found in a host's name.
    pub fn is_about(&self, alloc: Global, host: &[u8]) -> Result<bool, OutOfMemory>
        ensures { IfOk result (λ about. about ≡ is_about host.now self.now) }
    {
        found_or(alloc, true, &self.host, host)
    }

    /// Whether it meets a host and a product.
    pub fn meets(&self, alloc: Global, host: &[u8], info: &Info) -> Result<bool, OutOfMemory>
        ensures { IfOk result (λ it_meets. it_meets ≡ meets host.now info.now self.now) }
    {
        if !self.feed.meets(info.feed()) {
            return Ok(false);
        }
        self.is_about(alloc, host)
    }

    /// Whether a product passes where the rule meets.
    pub fn passes(&self, alloc: Global, info: &Info) -> Result<bool, OutOfMemory>
        ensures { IfOk result (λ it_passes. it_passes ≡ passes info.now self.now) }
    {
        if !found_or(alloc, true, &self.ok, info.ident())? {
            return Ok(false);
        }
        Ok(!found_or(alloc, false, &self.not, info.ident())?)
    }
}

// Whether a pattern is found in a text, or what holds where there is no pattern.
fn found_or(
    alloc: Global,
    otherwise: bool,
    pattern: &Option<Pattern>,
    text: &[u8],
) -> Result<bool, OutOfMemory>
    ensures { IfOk result (λ found. found ≡ found_or otherwise pattern.now text.now) }
{
    match pattern {
        Some(pattern) => pattern.is_in(alloc, text),
        None => Ok(otherwise),
    }
}
