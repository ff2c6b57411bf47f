//! The posts of a node: a station for each worker, and why it stopped.
ghost use Rattle.std.specs.Prelude.{◌≡◌, ◌+◌, ◌<◌, ◌≤◌, ◌++◌, [], None, length, map};
ghost use Rattle.std.specs.Option.{option_to_list};
ghost use Rattle.std.specs.Vec.{vec_len, vec_capacity};
ghost use Rattle.ldm_node.specs.Posts.{AreLast, clerk_behind, posts_of, stations_of, stop_of};
ghost use Rattle.ldm_node.specs.Stops.{first_stop};

use crate::stop::NodeStop;
use crate::stops::or_stop;

/// What a worker has of its own: its station, and why it stopped. The last worker has no station, and is a clerk or
/// rests.
pub(crate) struct Post<S, K> {
    pub(crate) station: Option<S>,
    pub(crate) clerk: Option<K>,
    pub(crate) stop: NodeStop,
}

/// Makes a post of each station, in order, and one without a station behind them, of the clerk if there is one.
pub(crate) fn hand_out<S, K>(stations: &mut Vec<S>, clerk: Option<K>, posts: &mut Vec<Post<S, K>>)
    requires none { posts.old.items ≡ [] }
    requires room { vec_len stations.old < vec_capacity posts.old }
    ensures emptied { stations.new.items ≡ [] }
    ensures room { vec_len stations.old ≤ vec_capacity stations.new }
    ensures posts { posts.new.items ≡ posts_of stations.old.items clerk }
{
    stations.reverse();
    while let Some(station) = stations.pop() {
        posts.push_reserved(Post {
            station: Some(station),
            clerk: None,
            stop: NodeStop::Done,
        });
    }
    posts.push_reserved(Post {
        station: None,
        clerk,
        stop: NodeStop::Done,
    });
}

/// Takes the stations back, in order, and answers why the first worker stopped that was not done, and the clerk.
pub(crate) fn take_back<S, K>(
    mut posts: Vec<Post<S, K>>,
    stations: &mut Vec<S>,
) -> (NodeStop, Option<K>)
    requires last { AreLast posts.items }
    requires emptied { stations.old.items ≡ [] }
    requires room { length (stations_of posts.items) ≤ vec_capacity stations.old }
    ensures stations { stations.new.items ≡ stations_of posts.items }
    ensures first { result.0 ≡ first_stop (map stop_of posts.items) }
    ensures clerk { result.1 ≡ clerk_behind None posts.items }
{
    let mut first = NodeStop::Done;
    posts.reverse();
    while let Some(post) = posts.pop() {
        let Post {
            station,
            clerk,
            stop,
        } = post;
        put_station(station, stations);
        first = or_stop(first, stop);
        match clerk {
            Some(clerk) => {
                posts.destroy_empty();
                return (first, Some(clerk));
            }
            None => {}
        }
    }
    posts.destroy_empty();
    (first, None)
}

// Puts a station behind the others, where there is one.
fn put_station<S>(station: Option<S>, stations: &mut Vec<S>)
    requires room { vec_len stations.old + length (option_to_list station) ≤ vec_capacity stations.old }
    ensures items { stations.new.items ≡ stations.old.items ++ option_to_list station }
    ensures room { vec_capacity stations.old ≤ vec_capacity stations.new }
{
    match station {
        Some(station) => stations.push_reserved(station),
        None => {}
    }
}
