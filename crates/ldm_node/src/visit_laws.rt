//! What is told of all visits of a worker, by the definitions alone.
ghost use Rattle.std.specs.Prelude.{◌≡◌, ℕ, List, ◌++◌, length, false, Some};
ghost use Rattle.std.specs.Option.{option_map};
ghost use Rattle.ldm_class.specs.Rules.{Rules};
ghost use Rattle.ldm_outside.specs.Io.{Takes};
ghost use Rattle.ldm_outside.specs.Lending.{LinkBack};
ghost use Rattle.ldm_outside.specs.Told.{TellsMore};
ghost use Rattle.ldm_node.specs.declared.session_end.SessionEnd.TheVariants.{Stopped};
ghost use Rattle.ldm_node.specs.declared.stop.NodeStop.{NodeStop};
ghost use Rattle.ldm_node.specs.declared.stop.NodeStop.TheVariants.{Done};
ghost use Rattle.ldm_node.specs.Lines.{session_line};
ghost use Rattle.ldm_node.specs.DoorMoments.{DoorMoment};
ghost use Rattle.ldm_node.specs.VisitsTold.{all_visits, hosts_of, log_of, own_lines};
ghost use Rattle.ldm_node.specs.Visits.{Visit};
ghost use Rattle.ldm_node.specs.DoorWorks.{LastVisit, Works};

/// What is told of all visits of a worker.
pub fn what_is_told_of_visits()
    // The hosts that came are those of the visits, in order, where the door tells them.
    ensures came { (stop : NodeStop) (rules : Rules) (sessions : ℕ) (old new : DoorMoment)
        (works : Works stop rules sessions old new) →
        new.station.door.hosts ≡ option_map (λ before. before ++ hosts_of (all_visits works)) old.station.door.hosts }
    // Where the worker is done, its log took for each visit, in order, the lines that its session wrote itself and then
    // its own line, and nothing else.
    ensures logged { (rules : Rules) (sessions : ℕ) (old new : DoorMoment) (works : Works Done rules sessions old new) →
        Takes old.station.log (log_of (all_visits works) (own_lines works)) new.station.log }
    // Where the gate stopped the last one, the last line says so.
    ensures stopped { (rules : Rules) (sessions : ℕ) (old new : DoorMoment) (visit : Visit)
        (works : Works Done rules sessions old new) →
        works.ending ≡ Some (LastVisit visit) →
        (before : List ℕ) × Takes old.station.log (before ++ session_line visit.host Stopped) new.station.log }
    // Every link that came was given back, in order: none is out, and one is told of each visit, where the door tells
    // them.
    ensures given_back { (stop : NodeStop) (rules : Rules) (sessions : ℕ) (old new : DoorMoment)
        (works : Works stop rules sessions old new) →
        (links : List LinkBack) × (length links ≡ length (all_visits works))
        × TellsMore (λ before. before ++ links) old.station.door.links.back new.station.door.links.back }
    ensures none_out { (stop : NodeStop) (rules : Rules) (sessions : ℕ) (old new : DoorMoment)
        (works : Works stop rules sessions old new) →
        old.station.door.links.out ≡ false → new.station.door.links.out ≡ false }
{}
