//! The stations of a node: the net listens, and hands one to each worker.
ghost use Rattle.std.specs.Prelude.{◌≡◌, ◌+◌, ◌<◌, ◌≤◌, ◌^◌, length, Some, IfOk, IfErr, OnOk};
ghost use Rattle.ldm_outside.specs.Station.{station_tells};
ghost use Rattle.ldm_conf.specs.Confs.{conf_view};
ghost use Rattle.ldm_node_command.specs.declared.progress.Step.TheVariants as step;
ghost use Rattle.ldm_node_command.specs.Listening.{FailsToListen, Listens};
ghost use Rattle.ldm_node_command.specs.Setup.{setup_of};

use crate::progress::{Step, Steps};
use crate::setup::NodeSetup;
use ldm_conf::Conf;
use ldm_outside::{Manned, Net, Station};

/// Why the net gave no stations.
#[derive(Clone, Copy, Debug, PartialEq, Eq)]
pub enum ListenFault {
    /// It failed, as where the port cannot be listened on.
    Failed,
    /// There is no memory.
    OutOfMemory,
}

/// Asks the net for a station for each worker, whose doors let in what comes to the port of the setup.
pub(crate) fn listen<N: Net>(
    setup: &NodeSetup<'_>,
    conf: &Conf,
    net: &mut N,
    steps: &mut Steps,
) -> Result<
    Vec<Station<N::StationDoor, N::StationDial, N::StationLog, N::StationClock, N::StationGate>>,
    ListenFault,
>
    requires few { setup.now.options.workers + length conf.now.requests.items < 2 ^ 32 }
    requires before { steps.old ≡ Some step.Restoring }
    ensures listens { IfOk result (λ stations.
        Listens
        (station_tells N.StationDoor.tells N.StationDial.tells N.StationLog.tells N.StationClock.tells
        N.StationGate.tells)
        (setup_of setup.now) (conf_view conf.now) stations.items (N.tells net.old) (N.tells net.new)) }
    ensures fails { IfErr result (λ why. FailsToListen why (N.tells net.old) (N.tells net.new)) }
    ensures kept { N.kept net.new ≡ N.kept net.old }
    ensures asked { N.port_asked net.new ≡ Some setup.now.options.port }
    ensures noted { OnOk result (steps.new ≡ Some step.Listening) }
    ensures faults_kept { (N.tells net.old).faults ≤ (N.tells net.new).faults }
{
    let count = setup.options.workers + conf.requests.len() as u32;
    match net.stations(setup.options.port, count, setup.options.idles) {
        Manned::Stations(stations) => {
            steps.make(Step::Listening);
            Ok(stations)
        }
        Manned::Failed => Err(ListenFault::Failed),
        Manned::OutOfMemory => Err(ListenFault::OutOfMemory),
    }
}
