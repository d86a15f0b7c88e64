ghost use Rattle.std.specs.Prelude.{◌≡◌, ◌≤◌, ◌∷◌, [], false, length, map, None, IfOk, OnOk};
ghost use Rattle.prefs_proto.specs.Reads.{Reads};
ghost use Rattle.shelf.specs.Base.{HasItsBase};
ghost use Rattle.shelf.specs.ShelfSeen.{shelf_seen};
ghost use Rattle.script_lang.specs.Keeps.{Keeps};
ghost use Rattle.value_cache.specs.Cached.{kept_seen};
ghost use Rattle.replay_run.specs.NewClients.{AreNew};
ghost use Rattle.replay_run.specs.PrefsBasis.{prefs_basis};
ghost use Rattle.replay_run.specs.SessionInvariant.{AsksFew};
ghost use Rattle.replay_run.specs.SessionSteps.{IsOpened};
ghost use Rattle.replay_run.specs.SessionView.{store_in};
ghost use Rattle.replay_run.specs.ShelfOpens.{ShelfOpens, first_nodes, with_nodes};

use super::RunningSession;
use crate::client::{Client, Settings};
use crate::main_file::{FILE_LIMIT, base_of, copy_of};
use folder_disk::{FuseFolder, MemFolder};
use hist_journal::Bounds;
use prefs_model::PrefMap;
use prefs_proto::PrefsCodec;
use script_lang::{Script, SessionPlan};
use shelf::{AddNodeError, DeathPlan, Setup, Shelf};
use std::alloc::{AllocError, Global};
use store_traits::{ClientId, NodeId, PlainWord};
use value_cache::Cache;

/// How much a history weighs once it is full.
const WEIGHT_LIMIT: u64 = 268_435_456;

impl<'s> RunningSession<'s> {
    /// The first session of a script, by this plan, in which nothing has happened yet.
    pub(crate) fn open(
        alloc: Global,
        script: &'s Script,
        plan: &SessionPlan,
    ) -> Result<RunningSession<'s>, AllocError>
        requires keeps { Keeps script.now }
        requires plan { script.now.sessions ≡ plan.now ∷ [] }
        ensures opened { IfOk result (IsOpened script.now plan.now) }
        ensures few { IfOk result (AsksFew 0) }
        ensures base { IfOk result (λ session. HasItsBase Reads [] (store_in session.shelf)) }
    {
        let mut shelf = open_shelf(alloc, script, plan)?;
        let nodes = script.names.nodes.names().len() as u32;
        add_nodes(alloc, &mut shelf, nodes)?;
        Ok(RunningSession {
            shelf,
            word: PlainWord::new(),
            caches: empty_caches(alloc, nodes)?,
            clients: new_clients(alloc, script.homes.as_slice())?,
        })
    }
}

/// The folder has the script's file and fails by the plan, nodes die by it, and the base is what the file reads as.
fn open_shelf(
    alloc: Global,
    script: &Script,
    plan: &SessionPlan,
) -> Result<Shelf<Settings>, AllocError>
    requires unreplaced { script.now.start.replace ≡ false }
    ensures { IfOk result (ShelfOpens prefs_basis script.now plan.now) }
{
    let main = copy_of(alloc, &script.start.file)?;
    let failing = plan.folder_faults.as_slice().to_vec(alloc)?;
    let folder = MemFolder::new(alloc, main, failing)?;
    let base = base_of(alloc, folder.main())?;
    let bounds = Bounds {
        entries: script.start.entries,
        weight: WEIGHT_LIMIT,
    };
    let deaths = plan.deaths.as_slice().to_vec(alloc)?;
    let setup = Setup {
        codec: PrefsCodec,
        limit: FILE_LIMIT,
        bounds,
        deaths: DeathPlan::new(alloc, deaths)?,
    };
    let folder = FuseFolder::new(folder, plan.fuse);
    Ok(Shelf::new(alloc, setup, base, folder))
}

/// Adds so many nodes to a shelf without nodes.
fn add_nodes(alloc: Global, shelf: &mut Shelf<Settings>, count: u32) -> Result<(), AllocError>
    requires { (store_in shelf.old).nodes ≡ [] }
    ensures { OnOk result (shelf_seen shelf.new ≡ with_nodes (shelf_seen shelf.old) (first_nodes count)) }
{
    for number in 0..count {
        match shelf.add_node(alloc, NodeId(number)) {
            Ok(()) => {}
            Err(AddNodeError::NoMemory) => return Err(AllocError),
            Err(AddNodeError::Exists) => unreachable!(),
        }
    }
    Ok(())
}

/// So many caches that keep nothing.
fn empty_caches(alloc: Global, count: u32) -> Result<Vec<Cache<PrefMap>>, AllocError>
    ensures { IfOk result (λ caches. map kept_seen caches.items ≡ map (λ node. None) (first_nodes count)) }
{
    let mut caches = Vec::with_capacity(alloc, count as usize)?;
    for _node in 0..count {
        caches.push(Cache::new())?;
    }
    Ok(caches)
}

/// A client of each of these nodes.
fn new_clients<'s>(alloc: Global, homes: &[NodeId]) -> Result<Vec<Client<'s>>, AllocError>
    requires { length homes.now ≤ 64 }
    ensures { IfOk result (λ clients. AreNew homes.now clients.items) }
{
    let mut clients = Vec::with_capacity(alloc, homes.len())?;
    for (place, &node) in homes.iter().enumerate() {
        clients.push(Client::new(alloc, ClientId(place as u32), node))?;
    }
    Ok(clients)
}
