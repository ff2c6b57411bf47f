//! The tools that ask a node over a link.
ghost use Rattle.std.specs.Prelude.{◌≡◌, false};
ghost use Rattle.ldm_outside.specs.Station.{station_tells};
ghost use Rattle.ldm_words.specs.Views.{act_view, cat_view, insert_view, mon_view, notices_view};
ghost use Rattle.ldm_words.specs.Views.{stats_view, wmo_view};
ghost use Rattle.ldm_commands.specs.Command as form;
ghost use Rattle.ldm_commands.specs.Doing.{Done};
ghost use Rattle.ldm_commands.specs.Lent.{form_of, framing_of};
ghost use Rattle.ldm_commands.specs.World.{kept_desk_of, tells_of, world_view};
ghost use Rattle.ldm_disk.specs.Desks.{desk_tells};

use crate::world::World;
use ldm_disk::{Desks, Disk};
use ldm_gather::{Order, cat_products};
use ldm_outside::{Clock, Launcher, Reasons, Rests, Sink, Source, Store};
use ldm_pqact_command::ActOrder;
use ldm_pqstats::{StatsAsked, pqstats};
use ldm_tools::{Insertion, pqinsert, pqmon, pqmon_every};
use ldm_watch::{NoticeForm, NoticesAsked, notifyme};
use ldm_wmo::{Framing, Ingestion, ingest};
use ldm_words::{ActWords, CatWords, InsertWords, MonWords, NoticesWords, StatsWords, WmoWords};
use std::alloc::Global;
use std::sync::Wait;

/// Writes the figures of a node's queue, once or again and again.
#[inline(never)]
pub(crate) fn tell_figures<
    S: Source,
    K: Sink,
    E: Sink,
    C: Rests,
    F: Store,
    L: Launcher,
    N: Desks + Reasons,
    D: Disk,
>(alloc: Global, words: &MonWords, world: &mut World<S, K, E, C, F, L, N, D>) -> u8
    requires { (N.tells world.old.net).links.out ≡ false }
    ensures { let tells = tells_of K.tells F.tells L.tells
        (station_tells N.StationDoor.tells N.StationDial.tells N.StationLog.tells N.StationClock.tells
        N.StationGate.tells) in
        Done tells (form.Pqmon (mon_view words.now)) result
        (world_view S.tells E.tells C.tells N.tells N.kept N.port_asked
        (kept_desk_of N.kept_desk
        (desk_tells N.DeskDisk.tells N.StationLog.tells N.StationClock.tells N.StationGate.tells)) D.tells world.old)
        (world_view S.tells E.tells C.tells N.tells N.kept N.port_asked
        (kept_desk_of N.kept_desk
        (desk_tells N.DeskDisk.tells N.StationLog.tells N.StationClock.tells N.StationGate.tells)) D.tells world.new) }
{
    let peer = &words.peer;
    match words.every {
        Some(seconds) => pqmon_every(
            alloc,
            &mut world.net,
            &mut world.streams.sink,
            &mut world.streams.log,
            &mut world.clock,
            peer.host.as_slice(),
            peer.port,
            seconds,
        ),
        None => pqmon(
            alloc,
            &mut world.net,
            &mut world.streams.sink,
            &mut world.streams.log,
            peer.host.as_slice(),
            peer.port,
        ),
    }
}

/// Acts on the products of a node.
#[inline(never)]
pub(crate) fn act_on_products<
    H: Wait,
    S: Source,
    K: Sink,
    E: Sink,
    C: Clock,
    F: Store + Reasons,
    L: Launcher + Reasons,
    N: Desks + Reasons,
    D: Disk,
>(rt: &H, alloc: Global, words: &ActWords<'_>, world: &mut World<S, K, E, C, F, L, N, D>) -> u8
    requires { (N.tells world.old.net).links.out ≡ false }
    ensures { let tells = tells_of K.tells F.tells L.tells
        (station_tells N.StationDoor.tells N.StationDial.tells N.StationLog.tells N.StationClock.tells
        N.StationGate.tells) in
        Done tells (form.Pqact (act_view words.now)) result
        (world_view S.tells E.tells C.tells N.tells N.kept N.port_asked
        (kept_desk_of N.kept_desk
        (desk_tells N.DeskDisk.tells N.StationLog.tells N.StationClock.tells N.StationGate.tells)) D.tells world.old)
        (world_view S.tells E.tells C.tells N.tells N.kept N.port_asked
        (kept_desk_of N.kept_desk
        (desk_tells N.DeskDisk.tells N.StationLog.tells N.StationClock.tells N.StationGate.tells)) D.tells world.new) }
{
    let order = Order {
        host: words.peer.host.as_slice(),
        port: words.peer.port,
        class: &words.class,
        last: None,
        count: words.count,
        arena: words.arena,
        slots: words.slots,
    };
    let order = ActOrder {
        order,
        conf: words.conf,
        state: words.state,
    };
    ldm_pqact_command::act_on_products(
        rt,
        alloc,
        &mut world.net,
        &mut world.store,
        &mut world.launcher,
        &mut world.streams.log,
        &mut world.clock,
        &order,
    )
}

/// Writes the bodies of the products of a node.
#[inline(never)]
pub(crate) fn write_bodies<
    H: Wait,
    S: Source,
    K: Sink,
    E: Sink,
    C: Clock,
    F: Store,
    L: Launcher,
    N: Desks + Reasons,
    D: Disk,
>(rt: &H, alloc: Global, words: &CatWords, world: &mut World<S, K, E, C, F, L, N, D>) -> u8
    requires { (N.tells world.old.net).links.out ≡ false }
    ensures { let tells = tells_of K.tells F.tells L.tells
        (station_tells N.StationDoor.tells N.StationDial.tells N.StationLog.tells N.StationClock.tells
        N.StationGate.tells) in
        Done tells (form.Pqcat (cat_view words.now)) result
        (world_view S.tells E.tells C.tells N.tells N.kept N.port_asked
        (kept_desk_of N.kept_desk
        (desk_tells N.DeskDisk.tells N.StationLog.tells N.StationClock.tells N.StationGate.tells)) D.tells world.old)
        (world_view S.tells E.tells C.tells N.tells N.kept N.port_asked
        (kept_desk_of N.kept_desk
        (desk_tells N.DeskDisk.tells N.StationLog.tells N.StationClock.tells N.StationGate.tells)) D.tells world.new) }
{
    let order = Order {
        host: words.peer.host.as_slice(),
        port: words.peer.port,
        class: &words.class,
        last: None,
        count: words.count,
        arena: words.arena,
        slots: words.slots,
    };
    cat_products(
        rt,
        alloc,
        &mut world.net,
        &mut world.streams.sink,
        &mut world.streams.log,
        &mut world.clock,
        &order,
    )
}

/// Writes a line for each product of a node.
#[inline(never)]
pub(crate) fn tell_products<
    S: Source,
    K: Sink,
    E: Sink,
    C: Clock,
    F: Store,
    L: Launcher,
    N: Desks + Reasons,
    D: Disk,
>(alloc: Global, words: &NoticesWords, world: &mut World<S, K, E, C, F, L, N, D>) -> u8
    requires { (N.tells world.old.net).links.out ≡ false }
    ensures { let tells = tells_of K.tells F.tells L.tells
        (station_tells N.StationDoor.tells N.StationDial.tells N.StationLog.tells N.StationClock.tells
        N.StationGate.tells) in
        Done tells (form.Notifyme (notices_view words.now)) result
        (world_view S.tells E.tells C.tells N.tells N.kept N.port_asked
        (kept_desk_of N.kept_desk
        (desk_tells N.DeskDisk.tells N.StationLog.tells N.StationClock.tells N.StationGate.tells)) D.tells world.old)
        (world_view S.tells E.tells C.tells N.tells N.kept N.port_asked
        (kept_desk_of N.kept_desk
        (desk_tells N.DeskDisk.tells N.StationLog.tells N.StationClock.tells N.StationGate.tells)) D.tells world.new) }
{
    let asked = NoticesAsked {
        host: words.peer.host.as_slice(),
        port: words.peer.port,
        class: &words.class,
        count: words.count,
        form: form_of(words.text),
    };
    notifyme(
        alloc,
        &mut world.net,
        &mut world.streams.sink,
        &mut world.streams.log,
        &asked,
    )
}

// How the lines of notices are written: for people, or as numbers.
fn form_of(text: bool) -> NoticeForm
    ensures { result ≡ form_of text }
{
    if text {
        NoticeForm::Names
    } else {
        NoticeForm::Numbers
    }
}

/// Puts files into the queue of a node.
#[inline(never)]
pub(crate) fn put_files<
    S: Source,
    K: Sink,
    E: Sink,
    C: Clock,
    F: Store + Reasons,
    L: Launcher,
    N: Desks + Reasons,
    D: Disk,
>(alloc: Global, words: &InsertWords<'_>, world: &mut World<S, K, E, C, F, L, N, D>) -> u8
    requires { (N.tells world.old.net).links.out ≡ false }
    ensures { let tells = tells_of K.tells F.tells L.tells
        (station_tells N.StationDoor.tells N.StationDial.tells N.StationLog.tells N.StationClock.tells
        N.StationGate.tells) in
        Done tells (form.Pqinsert (insert_view words.now)) result
        (world_view S.tells E.tells C.tells N.tells N.kept N.port_asked
        (kept_desk_of N.kept_desk
        (desk_tells N.DeskDisk.tells N.StationLog.tells N.StationClock.tells N.StationGate.tells)) D.tells world.old)
        (world_view S.tells E.tells C.tells N.tells N.kept N.port_asked
        (kept_desk_of N.kept_desk
        (desk_tells N.DeskDisk.tells N.StationLog.tells N.StationClock.tells N.StationGate.tells)) D.tells world.new) }
{
    let insertion = Insertion {
        host: words.peer.host.as_slice(),
        port: words.peer.port,
        feed: words.feed,
        ident: words.ident,
        origin: words.origin,
        sign_ident: words.sign_ident,
        files: words.files.as_slice(),
    };
    pqinsert(
        alloc,
        &mut world.store,
        &mut world.net,
        &mut world.streams.sink,
        &mut world.streams.log,
        &mut world.clock,
        &insertion,
    )
}

/// Puts the bulletins of the source into the queue of a node.
#[inline(never)]
pub(crate) fn put_bulletins<
    S: Source,
    K: Sink,
    E: Sink,
    C: Clock,
    F: Store,
    L: Launcher,
    N: Desks + Reasons,
    D: Disk,
>(alloc: Global, words: &WmoWords<'_>, world: &mut World<S, K, E, C, F, L, N, D>) -> u8
    requires { (N.tells world.old.net).links.out ≡ false }
    ensures { let tells = tells_of K.tells F.tells L.tells
        (station_tells N.StationDoor.tells N.StationDial.tells N.StationLog.tells N.StationClock.tells
        N.StationGate.tells) in
        Done tells (form.Wmo (wmo_view words.now)) result
        (world_view S.tells E.tells C.tells N.tells N.kept N.port_asked
        (kept_desk_of N.kept_desk
        (desk_tells N.DeskDisk.tells N.StationLog.tells N.StationClock.tells N.StationGate.tells)) D.tells world.old)
        (world_view S.tells E.tells C.tells N.tells N.kept N.port_asked
        (kept_desk_of N.kept_desk
        (desk_tells N.DeskDisk.tells N.StationLog.tells N.StationClock.tells N.StationGate.tells)) D.tells world.new) }
{
    let ingestion = Ingestion {
        framing: framing_of(words.socket),
        host: words.peer.host.as_slice(),
        port: words.peer.port,
        feed: words.feed,
        origin: words.origin,
    };
    ingest(
        alloc,
        &mut world.streams.source,
        &mut world.net,
        &mut world.streams.sink,
        &mut world.streams.log,
        &mut world.clock,
        &ingestion,
    )
}

// How bulletins stand in a stream: on a line, or in frames.
fn framing_of(socket: bool) -> Framing
    ensures { result ≡ framing_of socket }
{
    if socket {
        Framing::Socket
    } else {
        Framing::Line
    }
}

/// Writes how much of the products of a node came in each hour.
#[inline(never)]
pub(crate) fn count_products<
    H: Wait,
    S: Source,
    K: Sink,
    E: Sink,
    C: Clock,
    F: Store,
    L: Launcher,
    N: Desks + Reasons,
    D: Disk,
>(rt: &H, alloc: Global, words: &StatsWords, world: &mut World<S, K, E, C, F, L, N, D>) -> u8
    requires { (N.tells world.old.net).links.out ≡ false }
    ensures { let tells = tells_of K.tells F.tells L.tells
        (station_tells N.StationDoor.tells N.StationDial.tells N.StationLog.tells N.StationClock.tells
        N.StationGate.tells) in
        Done tells (form.Pqstats (stats_view words.now)) result
        (world_view S.tells E.tells C.tells N.tells N.kept N.port_asked
        (kept_desk_of N.kept_desk
        (desk_tells N.DeskDisk.tells N.StationLog.tells N.StationClock.tells N.StationGate.tells)) D.tells world.old)
        (world_view S.tells E.tells C.tells N.tells N.kept N.port_asked
        (kept_desk_of N.kept_desk
        (desk_tells N.DeskDisk.tells N.StationLog.tells N.StationClock.tells N.StationGate.tells)) D.tells world.new) }
{
    let asked = StatsAsked {
        host: words.peer.host.as_slice(),
        port: words.peer.port,
        class: &words.class,
        count: words.count,
        hours: words.hours,
        send: words.send,
    };
    pqstats(
        rt,
        alloc,
        &mut world.net,
        &mut world.streams.sink,
        &mut world.streams.log,
        &mut world.clock,
        &asked,
    )
}
