//! What is told of all tries of a worker, by the definitions alone.
ghost use Rattle.std.specs.Prelude.{◌++◌};
ghost use Rattle.ldm_outside.specs.Io.{Takes};
ghost use Rattle.ldm_outside.specs.Told.{TellsMore};
ghost use Rattle.ldm_conf.specs.Confs.{RequestView};
ghost use Rattle.ldm_node.specs.declared.stop.NodeStop.{NodeStop};
ghost use Rattle.ldm_node.specs.declared.stop.NodeStop.TheVariants.{Done};
ghost use Rattle.ldm_node.specs.RequestMoments.{RequestMoment};
ghost use Rattle.ldm_node.specs.TriesTold.{Follow, all_tries, asked_by, log_of, own_lines};
ghost use Rattle.ldm_node.specs.RequestWorks.{Works};

/// What is told of all tries of a worker, of which there is one at least.
pub fn what_is_told_of_tries()
    // The dial was asked once by each, for the host and the port of the request, where it tells whom it was asked for.
    ensures asked { (stop : NodeStop) (request : RequestView) (old new : RequestMoment)
        (works : Works stop request old new) →
        TellsMore (λ before. before ++ asked_by request (all_tries works)) old.station.dial.asked
        new.station.dial.asked }
    // Where the gate stopped the worker, its log took for each try, in order, the lines that its session wrote itself
    // and then its own line, and nothing else.
    ensures logged { (request : RequestView) (old new : RequestMoment) (works : Works Done request old new) →
        Takes old.station.log (log_of request (all_tries works) (own_lines works)) new.station.log }
    // Each session begins behind the last product of the one before.
    ensures resumed { (stop : NodeStop) (request : RequestView) (old new : RequestMoment)
        (works : Works stop request old new) →
        Follow old.last (all_tries works) }
{}
