//! The procedures of the program.
ghost use Rattle.std.specs.Prelude.{◌≡◌};
ghost use Rattle.ldm_relay.specs.Procedure.{number_of, numbered, procedure_of, answered};

/// The number of the program that nodes call.
pub const PROGRAM: u32 = 300_029;

/// The version of the program.
pub const VERSION: u32 = 6;

/// A procedure: what a call asks for.
#[derive(Clone, Copy, Debug, PartialEq, Eq)]
pub enum Procedure {
    Hereis,
    Feedme,
    Hiya,
    Comingsoon,
    Blkdata,
    Isalive,
    Qstat,
    Put,
    Notification,
    Notifyme,
}

impl Procedure {
    const ALL: [Procedure; 10] = [
        Procedure::Hereis,
        Procedure::Feedme,
        Procedure::Hiya,
        Procedure::Comingsoon,
        Procedure::Blkdata,
        Procedure::Isalive,
        Procedure::Qstat,
        Procedure::Put,
        Procedure::Notification,
        Procedure::Notifyme,
    ];

    /// Its number.
    pub fn number(self) -> u32
        ensures { result ≡ number_of self }
    {
        match self {
            Procedure::Hereis => 1,
            Procedure::Feedme => 4,
            Procedure::Hiya => 5,
            Procedure::Comingsoon => 12,
            Procedure::Blkdata => 13,
            Procedure::Isalive => 14,
            Procedure::Qstat => 100,
            Procedure::Put => 101,
            Procedure::Notification => 6,
            Procedure::Notifyme => 7,
        }
    }

    /// The procedure of that number.
    #[tactic(auto, unfolding(crate::specs::Procedure::numbered))]
    pub fn of_number(number: u32) -> Option<Procedure>
        ensures { result ≡ numbered number }
    {
        Procedure::ALL
            .iter()
            .copied()
            .find(|procedure| procedure.number() == number)
    }
}

/// A procedure that has a reply.
#[derive(Clone, Copy, PartialEq, Eq)]
pub(crate) enum Answered {
    Feedme,
    Hiya,
    Comingsoon,
    Qstat,
    Put,
    Notifyme,
}

impl Answered {
    const ALL: [Answered; 6] = [
        Answered::Feedme,
        Answered::Hiya,
        Answered::Comingsoon,
        Answered::Qstat,
        Answered::Put,
        Answered::Notifyme,
    ];

    /// The procedure.
    pub fn procedure(self) -> Procedure
        ensures { result ≡ procedure_of self }
    {
        match self {
            Answered::Feedme => Procedure::Feedme,
            Answered::Hiya => Procedure::Hiya,
            Answered::Comingsoon => Procedure::Comingsoon,
            Answered::Qstat => Procedure::Qstat,
            Answered::Put => Procedure::Put,
            Answered::Notifyme => Procedure::Notifyme,
        }
    }

    /// The procedure of that number, where it has a reply.
    #[tactic(auto, unfolding(crate::specs::Procedure::answered))]
    pub fn of_number(number: u32) -> Option<Answered>
        ensures { result ≡ answered number }
    {
        Answered::ALL
            .iter()
            .copied()
            .find(|answered| answered.procedure().number() == number)
    }
}
