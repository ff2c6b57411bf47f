//! What words say.
ghost use Rattle.std.specs.Prelude.{◌<◌, ◌≤◌, ◌^◌, [], length};
ghost use Rattle.std.proofs.Props.{props};
ghost use Rattle.std.specs.List.{All, AllByRecursion};
ghost use Rattle.std.specs.Option.{ForSome, option_copied};
ghost use Rattle.ldm_words.specs.declared.limits.TheConstants.{MOST_CLASSES, MOST_HOURS};
ghost use Rattle.ldm_words.specs.Values.{IsName, IsOfAllTimes, ident_or, texts_of};

use ldm_class::Class;
use ldm_conf::Address;
use ldm_types::Feed;

/// The node that words ask for.
#[derive(Clone, Copy, Debug, PartialEq, Eq)]
pub struct NodeWords<'a> {
    /// Bytes of the queue's arena.
    pub arena: u64,
    /// Slots of the queue.
    pub slots: u32,
    /// The port of the doors, at least 1.
    pub port: u16,
    /// Workers at the doors.
    pub workers: u32,
    /// How many sessions a worker has.
    pub sessions: u32,
    /// How often a worker is idle at most, or none where there is no limit.
    pub idles: Option<u32>,
    /// The path of the journal of the queue, or none where it keeps none.
    pub journal: Option<&'a str>,
    /// Whether it ends where its standard input does.
    pub ends_with_input: bool,
    /// The path of the configuration.
    pub conf: &'a str,
    pub ghost port_some: { 0 < port },
}

/// What `pqact` acts on, by which entries, and from where it receives into what queue.
#[derive(Drop)]
pub struct ActWords<'a> {
    /// One specification, of all times.
    pub class: Class,
    /// How many products, at least 1; all where there is none.
    pub count: Option<u64>,
    /// Bytes of the arena of its own queue.
    pub arena: u64,
    /// Slots of its own queue.
    pub slots: u32,
    /// The path of the file with the state, where one is kept.
    pub state: Option<&'a str>,
    /// The path of the file with the entries.
    pub conf: &'a str,
    /// The node to ask.
    pub peer: Address,
    pub ghost counted: { ForSome count (λ n. 0 < n) },
}

/// What `pqinsert` puts into the queue of a node.
#[derive(Drop)]
pub struct InsertWords<'a> {
    /// The feedtypes of the products.
    pub feed: Feed,
    /// The ident of each product, or none where that is the name of its file.
    pub ident: Option<&'a [u8]>,
    /// The origin of the products.
    pub origin: &'a [u8],
    /// Whether signatures are those of idents, and not of bodies.
    pub sign_ident: bool,
    /// The node to ask.
    pub peer: Address,
    /// The paths of the files, one or more and fewer than 2^32.
    pub files: Vec<&'a str>,
    pub ghost few: { length files.items < 2 ^ 32 },
    pub ghost named: { All (λ file. IsName origin.now (ident_or (option_copied ident) file)) (texts_of files.items) },
}

/// What `pqcat`, `pqact`, `notifyme` and `pqstats` receive, and from where.
#[derive(Drop)]
pub(crate) struct Receiving {
    /// One specification, of all times.
    pub(crate) class: Class,
    /// How many products, at least 1; all where there is none.
    pub(crate) count: Option<u64>,
    /// The node to ask.
    pub(crate) peer: Address,
    pub(crate) ghost counted: { ForSome count (λ n. 0 < n) },
}

/// What `pqcat` receives, and from where into what queue.
#[derive(Drop)]
pub struct CatWords {
    /// One specification, of all times.
    pub class: Class,
    /// How many products, at least 1; all where there is none.
    pub count: Option<u64>,
    /// Bytes of the arena of its own queue.
    pub arena: u64,
    /// Slots of its own queue.
    pub slots: u32,
    /// The node to ask.
    pub peer: Address,
    pub ghost counted: { ForSome count (λ n. 0 < n) },
}

/// Whom `pqmon` asks, and how often.
#[derive(Drop)]
pub struct MonWords {
    /// How many seconds pass before it asks again, at least 1; it asks once where there is none.
    pub every: Option<u32>,
    /// The node to ask.
    pub peer: Address,
    pub ghost some: { ForSome every (λ n. 0 < n) },
}

/// What `notifyme` is told of, and from where.
#[derive(Drop)]
pub struct NoticesWords {
    /// One specification, of all times.
    pub class: Class,
    /// How many products, at least 1; all where there is none.
    pub count: Option<u64>,
    /// Whether the lines are for people, with dates and names.
    pub text: bool,
    /// The node to ask.
    pub peer: Address,
    pub ghost counted: { ForSome count (λ n. 0 < n) },
}

/// Where `wmo` puts the bulletins that it reads.
#[derive(Drop)]
pub struct WmoWords<'a> {
    /// The feedtypes of the products.
    pub feed: Feed,
    /// The origin of the products.
    pub origin: &'a [u8],
    /// Whether each bulletin is in a frame, as over a socket.
    pub socket: bool,
    /// The node to ask.
    pub peer: Address,
    pub ghost named: { IsName origin.now [] },
}

/// What `pqstats` counts, and from where it receives.
#[derive(Drop)]
pub struct StatsWords {
    /// One specification, of all times.
    pub class: Class,
    /// How many products, at least 1; all where there is none.
    pub count: Option<u64>,
    /// How many hours the report goes back: 1 to [`MOST_HOURS`](crate::MOST_HOURS).
    pub hours: u32,
    /// Whether the lines of each hour are sent to the node.
    pub send: bool,
    /// The node to ask.
    pub peer: Address,
    pub ghost counted: { ForSome count (λ n. 0 < n) },
    pub ghost some: { 0 < hours },
    pub ghost few: { hours ≤ MOST_HOURS },
}

/// The file that a queue is saved to, and the sizes of the queue.
#[derive(Clone, Copy, Debug, PartialEq, Eq)]
pub struct SaveWords<'a> {
    /// The path of the file.
    pub file: &'a str,
    /// Bytes of the queue's arena.
    pub arena: u64,
    /// Slots of the queue.
    pub slots: u32,
}

/// What a chain is made with.
#[derive(Drop)]
pub struct ChainWords<'a> {
    /// The path of the configuration, or none where all is allowed.
    pub conf: Option<&'a str>,
    /// Bytes of the arena of each queue.
    pub arena: u64,
    /// Slots of each queue.
    pub slots: u32,
    /// Bytes of the largest product that is to come whole.
    pub max_hereis: u32,
    /// What each node from 1 on asks of the node before it: 1 to 7 classes, each of one specification and of all times.
    pub classes: Vec<Class>,
    pub ghost some: { 0 < length classes.items },
    pub ghost few: { length classes.items ≤ MOST_CLASSES },
    pub ghost all_times: { AllByRecursion IsOfAllTimes classes.items } by { Prim.hlevel props },
}
