ghost use Rattle.std.specs.Prelude.{◌≡◌, [], map, replicate, IfOk};
ghost use Rattle.std.specs.List.{range_with_len};
ghost use Rattle.alw_times.specs.Times.{first_draw, times_start};

use crate::costs::Costs;
use crate::queues::Queue;
use alw_image::Image;
use alw_num::NoMemory;
use std::alloc::Global;
use std::marker::Model;

/// The times after the events so far. Contracts see them as `Times`.
#[derive(Drop)]
pub struct Clocks {
    pub(crate) starts: Vec<u64>,
    pub(crate) processors: Vec<u64>,
    pub(crate) controllers: Vec<u64>,
    pub(crate) ports: Vec<u64>,
    pub(crate) draws: Vec<u64>,
    pub(crate) wakes: Vec<u64>,
    pub(crate) arrivals: Vec<Queue>,
    pub(crate) packets: Vec<Queue>,
    pub(crate) latest: u64,
}

impl Model for Clocks {
    ghost use Rattle.alw_times.specs.Times.{Times};

    ghost Value = { Times };

    ghost view = { λ c. record {
      starts = c.starts.items;
      processors = c.processors.items;
      controllers = c.controllers.items;
      ports = c.ports.items;
      draws = c.draws.items;
      wakes = c.wakes.items;
      arrivals = c.arrivals.items;
      packets = c.packets.items;
      latest = c.latest;
    } };
}

impl Clocks {
    /// The times at the beginning of an image's run.
    pub fn of_start(alloc: Global, image: &Image, costs: &Costs) -> Result<Clocks, NoMemory>
        ensures { IfOk result (λ clocks. clocks ≡ times_start image.now costs.now) }
    {
        let nodes = usize::from(image.nodes());
        let contexts = nodes * usize::from(image.contexts());
        Ok(Clocks {
            starts: vec![in alloc; 0; nodes]?,
            processors: vec![in alloc; 0; nodes]?,
            controllers: vec![in alloc; 0; nodes]?,
            ports: vec![in alloc; 0; nodes]?,
            draws: first_draws(alloc, costs, image.nodes())?,
            wakes: vec![in alloc; 0; contexts]?,
            arrivals: empty_queues(alloc, nodes * nodes)?,
            packets: empty_queues(alloc, nodes)?,
            latest: 0,
        })
    }

    /// The greatest finish so far: the cycles of the run.
    pub fn cycles(&self) -> u64
        ensures { result ≡ self.now.latest }
    {
        self.latest
    }
}

// Where the draws of each node begin.
fn first_draws(alloc: Global, costs: &Costs, nodes: u16) -> Result<Vec<u64>, NoMemory>
    ensures { IfOk result (λ draws. draws.items ≡ map (first_draw costs.now) (range_with_len 0 nodes)) }
{
    let mut draws = Vec::with_capacity(alloc, usize::from(nodes))?;
    for node in 0..nodes {
        draws.push_reserved(first_draw(costs, node));
    }
    Ok(draws)
}

fn first_draw(costs: &Costs, node: u16) -> u64
    ensures { result ≡ first_draw costs.now node }
{
    costs.seed.wrapping_mul(256).wrapping_add(u64::from(node))
}

// So many queues without a time.
fn empty_queues(alloc: Global, count: usize) -> Result<Vec<Queue>, NoMemory>
    ensures { IfOk result (λ queues. queues.items ≡ replicate count []) }
{
    let mut queues = Vec::with_capacity(alloc, count)?;
    for _ in 0..count {
        queues.push_reserved(Queue::empty(alloc));
    }
    Ok(queues)
}
