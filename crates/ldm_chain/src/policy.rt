//! The rules of a chain.
ghost use Rattle.std.specs.Prelude.{◌≡◌, ◌≤◌, IfOk, IfErr};
ghost use Rattle.std.specs.Option.{option_copied};
ghost use Rattle.ldm_chain.specs.Policy.{IsUntaken, TakesRules, UntakenCompletes};

use crate::fault::ChainFault;
use ldm_class::Policy;
use ldm_command_files::take_conf;
use ldm_conf::Conf;
use ldm_outside::Store;
use std::alloc::Global;

/// The rules of the configuration under that path, where there is one. Else all is allowed.
pub fn take_policy<F: Store>(
    alloc: Global,
    store: &mut F,
    conf: Option<&str>,
) -> Result<Policy, ChainFault>
    ensures taken { IfOk result
        (λ policy. TakesRules (option_copied conf.entry) policy (F.tells store.old) (F.tells store.new)) }
    ensures untaken { IfErr result
        (λ why. IsUntaken why (option_copied conf.entry) (F.tells store.old) (F.tells store.new)) }
    ensures completes { IfErr result
        (λ why. UntakenCompletes why (option_copied conf.entry) (F.tells store.old) (F.tells store.new)) }
    ensures faults_kept { (F.tells store.old).faults ≤ (F.tells store.new).faults }
    ensures long_kept { (F.tells store.old).long ≤ (F.tells store.new).long }
{
    let Some(path) = conf else {
        return Ok(Policy::all(alloc)?);
    };
    match take_conf(alloc, store, path) {
        Ok(conf) => {
            let Conf { policy, .. } = conf;
            Ok(policy)
        }
        Err(why) => Err(ChainFault::ConfNotTaken(why)),
    }
}
