//! What an office is made of: a tree, and probes that write down what they are asked.
use order_lanes::probe::Probe;
use s6_events::{Actor, At, NoMemory, Order, Report};
use s6_script::{push_number, push_spaced};
use std::alloc::{AllocError, Global};
use std::sync::{Arc, Mutex, Wait};
use tree_core::{Act, Input, Tree};

/// Where probes write down what they are asked.
pub type AskedLog = Arc<Mutex<Vec<Order>>, Global>;

/// A log in which nothing is written.
pub fn new_log(alloc: Global) -> Result<AskedLog, NoMemory> {
    Ok(Arc::new(alloc, Mutex::new(Vec::new(alloc)))?)
}

/// A tree that has made no step.
pub fn new_tree(alloc: Global) -> Result<Box<Tree<Global>>, NoMemory> {
    Ok(Box::new(alloc, Tree::new(alloc))?)
}

/// A probe with these reports that writes into this log.
pub fn new_probe<R: Drop>(
    rt: R,
    alloc: Global,
    reports: Vec<Report>,
    log: &AskedLog,
) -> Result<Probe<R>, NoMemory> {
    let log = Arc::try_clone(log)?;
    Ok(Probe::new(rt, alloc, reports, 0, log))
}

// So many such probes.
fn new_probes<R: Copy + Drop>(
    rt: R,
    alloc: Global,
    count: usize,
    log: &AskedLog,
) -> Result<Vec<Probe<R>>, NoMemory> {
    let mut probes = Vec::new(alloc);
    for _ in 0..count {
        probes.push(new_probe(rt, alloc, Vec::new(alloc), log)?)?;
    }
    Ok(probes)
}

/// What a run begins with.
#[derive(Drop)]
pub struct TestParts<B: Drop> {
    pub tree: Box<Tree<Global>>,
    pub backends: Vec<B>,
}

/// What a first run begins with: a tree that has made no step, and so many probes.
pub fn new_parts<R: Copy + Drop>(
    rt: R,
    alloc: Global,
    lanes: usize,
    log: &AskedLog,
) -> Result<TestParts<Probe<R>>, NoMemory> {
    let backends = new_probes(rt, alloc, lanes, log)?;
    let tree = new_tree(alloc)?;
    Ok(TestParts { tree, backends })
}

/// Makes one step: whether the tree took it.
pub fn step_once(tree: &mut Tree<Global>) -> bool {
    let input = Input {
        actor: Actor::default(),
        at: At::zero(),
        act: Act::Tick,
    };
    tree.apply(input).is_ok()
}

// Adds an order: the run that is to be started, and the name of its service.
fn push_order(text: &mut Vec<u8>, order: &Order) -> Result<(), AllocError> {
    let Order::Run(sid, generation, name, None) = order else {
        return text.extend_from_slice(b", another");
    };
    text.extend_from_slice(b", run")?;
    push_spaced(text, sid.0)?;
    push_spaced(text, *generation)?;
    text.extend_from_slice(b" of ")?;
    text.extend_from_slice(name.as_bytes())
}

// Adds how many orders there are, and the first two.
fn push_orders(text: &mut Vec<u8>, orders: &[Order]) -> Result<(), AllocError> {
    push_number(text, orders.len() as u64)?;
    for order in orders.iter().take(2) {
        push_order(text, order)?;
    }
    Ok(())
}

/// Adds how many orders were written into the log, and the first two.
pub fn push_log<R: Wait>(rt: &R, log: &AskedLog, text: &mut Vec<u8>) -> Result<(), AllocError> {
    let orders = log.lock(rt);
    push_orders(text, orders.as_slice())
}
