//! Classes of products, and what is said to one.
ghost use Rattle.std.specs.Prelude.{◌≤◌, List, length, IfOk};
ghost use Rattle.std.specs.List.{AllByRecursion};
ghost use Rattle.ldm_relay.specs.Fits.{SpecFits, ClassFits, ClassAnswerFits};
ghost use Rattle.ldm_types.specs.declared.limits.TheConstants.{MOST_SPECS};
ghost use Rattle.ldm_relay.specs.Classes.{instant_in, spec_in, specs_in, class_in, reclass_in, class_answer_in};
ghost use Rattle.ldm_xdr.specs.FieldReads.{Gives};

use crate::message::ClassAnswer;
use arrayvec::ArrayVec;
use ldm_types::{ClassSpec, Feed, LONGEST_PATTERN, MOST_SPECS, Micros, Spec};
use ldm_xdr::Fields;

#[tactic(auto, unfolding(crate::specs::Classes::instant_in))]
fn read_instant(fields: &mut Fields) -> Result<Micros, usize>
    ensures { Gives (λ instant. instant) result (instant_in fields.old) fields.new }
{
    let seconds = fields.unsigned()?;
    let micros = fields.up_to(999_999)?;
    let Some(instant) = Micros::new(u64::from(seconds) * 1_000_000 + u64::from(micros)) else {
        unreachable!();
    };
    Ok(instant)
}

#[tactic(auto, unfolding(crate::specs::Classes::spec_in))]
fn read_spec(fields: &mut Fields) -> Result<Spec, usize>
    ensures read { Gives (λ spec. spec) result (spec_in fields.old) fields.new }
    ensures fits { IfOk result (λ spec. SpecFits spec) }
{
    let feed = fields.unsigned()?;
    let pattern = fields.opaque(LONGEST_PATTERN as u32)?;
    let Ok(pattern) = ArrayVec::try_from(pattern) else {
        unreachable!();
    };
    Ok(Spec {
        feed: Feed(feed),
        pattern,
    })
}

// So many specifications.
fn read_specs(count: u32, fields: &mut Fields) -> Result<ArrayVec<Spec, MOST_SPECS>, usize>
    requires { count ≤ MOST_SPECS }
    ensures read { Gives (λ specs. specs.items) result (specs_in count fields.old) fields.new }
    ensures few { IfOk result (λ specs. length specs.items ≤ MOST_SPECS) }
    ensures fits { IfOk result (λ specs. AllByRecursion SpecFits specs.items) }
{
    let mut specs = ArrayVec::new();
    for _ in 0..count {
        let spec = read_spec(fields)?;
        specs.push(spec);
    }
    Ok(specs)
}

/// Reads a class.
#[tactic(auto, unfolding(crate::specs::Classes::class_in))]
pub(crate) fn read_class(fields: &mut Fields) -> Result<ClassSpec, usize>
    ensures read { Gives (λ class. class) result (class_in fields.old) fields.new }
    ensures fits { IfOk result (λ class. ClassFits class) }
{
    let from = read_instant(fields)?;
    let to = read_instant(fields)?;
    let count = fields.up_to(MOST_SPECS as u32)?;
    let specs = read_specs(count, fields)?;
    Ok(ClassSpec { from, to, specs })
}

/// Reads what is said to a class: a code, and behind the code of `Reclass` a class.
#[tactic(auto, unfolding(crate::specs::Classes::class_answer_in, crate::specs::Classes::reclass_in))]
pub(crate) fn read_class_answer(fields: &mut Fields) -> Result<ClassAnswer, usize>
    ensures read { Gives (λ answer. answer) result (class_answer_in fields.old) fields.new }
    ensures fits { IfOk result (λ answer. ClassAnswerFits answer) }
{
    let left = fields.left();
    match fields.unsigned()? {
        0 => Ok(ClassAnswer::Ok),
        1 => Ok(ClassAnswer::Reclass(read_class(fields)?)),
        2 => Ok(ClassAnswer::Denied),
        3 => Ok(ClassAnswer::BadPattern),
        4 => Ok(ClassAnswer::Busy),
        _ => Err(left),
    }
}
