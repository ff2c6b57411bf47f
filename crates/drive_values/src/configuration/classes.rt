//! Classes of products.

use arrayvec::ArrayVec;
use ldm_class::Class;
use ldm_drive::{Trial, feed_in, plain_info, spec_in};
use ldm_types::{ClassSpec, Info, MOST_SPECS, Micros, Spec};

/// Builds a class and keeps it: tells what it was built of, and the signature to go on behind; or the fault.
pub fn build(kept: &mut Option<Class>, trial: &mut Trial) {
    let Some(spec) = class_of(trial) else {
        return trial.refuse("no class");
    };
    match Class::build(trial.alloc(), &spec) {
        Ok(class) => {
            tell_built(trial, &class);
            *kept = Some(class);
        }
        Err(fault) => trial.tell_debug(&fault),
    }
}

fn tell_built(trial: &mut Trial, class: &Class) {
    tell_class(trial, class.spec());
    if let Some(signature) = class.resume() {
        trial.tell(" behind ");
        trial.tell_digits(&signature.0);
    }
}

/// Asks whether the class that was kept wants a product.
pub fn ask(kept: &Option<Class>, trial: &mut Trial) {
    let Some(info) = product(trial) else {
        return trial.refuse("no product");
    };
    match kept {
        Some(class) => tell_wanted(trial, class, &info),
        None => trial.refuse("no class was built"),
    }
}

// Whether a class wants a product, in each way in which that is asked.
fn tell_wanted(trial: &mut Trial, class: &Class, info: &Info) {
    let Ok(wanted) = class.wants(trial.alloc(), info) else {
        return trial.lack_memory();
    };
    let Ok(mut matcher) = class.matcher(trial.alloc()) else {
        return trial.lack_memory();
    };
    if matcher.wants(info) != wanted || matcher.wants(info) != wanted {
        return trial.refuse("another answer");
    }
    trial.tell_value(&wanted);
}

/// The product with the feedtypes and the ident that a case gives.
pub fn product(trial: &mut Trial) -> Option<Info> {
    let word = trial.word();
    let feed = feed_in(trial, word);
    plain_info(Micros::new(100)?, 1, feed, &trial.text(), 4)
}

/// The class of all specifications that a case gives, each a feed expression, a slash and a pattern.
pub fn class_of(trial: &mut Trial) -> Option<ClassSpec> {
    let from = Micros::new(trial.number())?;
    let to = Micros::new(trial.number())?;
    let specs = specs_of(trial)?;
    Some(ClassSpec { from, to, specs })
}

// The specifications of all words that are left, if a class may have so many.
fn specs_of(trial: &mut Trial) -> Option<ArrayVec<Spec, MOST_SPECS>> {
    let mut specs = ArrayVec::new();
    for _ in 0..=MOST_SPECS {
        if trial.is_done() {
            break;
        }
        let word = trial.word();
        let spec = spec_in(trial, word)?;
        specs.try_push(spec).ok()?;
    }
    Some(specs)
}

/// Tells a class: its times, and the feedtypes and the pattern of each specification.
pub fn tell_class(trial: &mut Trial, class: &ClassSpec) {
    trial.tell_number(class.from.get());
    trial.tell(" to ");
    trial.tell_number(class.to.get());
    trial.tell(":");
    for spec in class.specs.as_slice() {
        tell_spec(trial, spec);
    }
}

fn tell_spec(trial: &mut Trial, spec: &Spec) {
    match format!(in trial.alloc(); " {:#x}/", spec.feed.0) {
        Ok(feed) => trial.tell(feed.as_str()),
        Err(_) => trial.lack_memory(),
    }
    trial.tell_shown(spec.pattern.as_slice());
}
