//! The lanes of a tree: what its runs hand orders to, and who carries them out.
use child_runner::{Keeper, LaneLink, LinkedBackend, ProcessBackend};
use error_notes::Notes;
use s6_events::NoMemory;
use server_rules::LANE_LIMIT;
use std::alloc::Global;
use std::sync::{Arc, Wait};

/// For each lane three things: the backend that runs of the tree ask, the worker, which carries out
/// the orders in the lane's thread, and the link, by which orders go from that backend to the
/// thread, and reports come back.
#[derive(Drop)]
pub struct TreeLanes<B, K> {
    pub backends: Vec<B>,
    pub links: Vec<Arc<LaneLink, Global>>,
    pub workers: Vec<K>,
}

/// The lanes of services that are processes.
pub type ServiceLanes<R> = TreeLanes<LinkedBackend<R>, ProcessBackend<R>>;

/// Makes the lanes of services that lie under `root`. Each has a worker (`ProcessBackend`), which
/// starts and signals processes in the lane's thread; a backend, which the runs of the tree ask;
/// and a link, by which orders go from the backend to the thread. The keeper starts the threads
/// that watch the processes. What can't be started or signalled is noted. `NoMemory` where memory
/// is refused.
pub fn open_service_lanes<R: Wait + Copy + Drop>(
    rt: R,
    alloc: Global,
    keeper: &Keeper<R>,
    root: &str,
    notes: &Arc<Notes, Global>,
) -> Result<ServiceLanes<R>, NoMemory> {
    let mut lanes = TreeLanes {
        backends: Vec::new(alloc),
        links: Vec::new(alloc),
        workers: Vec::new(alloc),
    };
    for _ in 0..LANE_LIMIT {
        // It goes into `workers`; `add_lane` makes its link and its backend.
        let worker = ProcessBackend::new(rt, alloc, keeper, root, notes)?;
        add_lane(rt, alloc, &mut lanes, worker)?;
    }
    Ok(lanes)
}

// Adds a lane: `worker`, which is to carry out its orders in the lane's thread; a new link to that
// thread; and the backend that runs ask, which sends each order over the link.
fn add_lane<R: Wait + Copy + Drop>(
    rt: R,
    alloc: Global,
    lanes: &mut ServiceLanes<R>,
    worker: ProcessBackend<R>,
) -> Result<(), NoMemory> {
    // The worker's bell wakes the lane's thread.
    let link = Arc::new(alloc, LaneLink::new(alloc, worker.bell()?))?;
    lanes.workers.push(worker)?;
    lanes.backends.push(LinkedBackend::new(rt, alloc, &link)?)?;
    lanes.links.push(link)?;
    Ok(())
}
