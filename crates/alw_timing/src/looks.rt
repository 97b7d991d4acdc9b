ghost use Rattle.std.specs.Prelude.{◌≡◌, ◌<◌, List};
ghost use Rattle.alw_msg.specs.Events.{node_of};
ghost use Rattle.alw_image.specs.Images.{node_count};
ghost use Rattle.alw_model.specs.Contexts.{Slot, running};
ghost use Rattle.alw_mesh.specs.Readings.{node_in};
ghost use Rattle.alw_timing.specs.Timing.{is_ready_at, ready_in, woken_in, for_delivery, AreWoken, IsLookAt, asked_at, asked_of};

use alw_mesh::Machine;
use alw_msg::Event;
use alw_num::NodeNo;
use alw_times::Clocks;
use alw_waits::Access;
use sparc_exec::need;
use sparc_table::Need;

/// What times look at before an event happens: of its node the slot that could run and the one that ran last;
/// for a delivery, which of the slots are Ready; and for waits alone, the access that an instruction asks for, and
/// when the message that a delivery takes arrived.
#[derive(Clone, Copy)]
pub struct Look {
    pub slot: Option<u8>,
    pub last: u8,
    pub ready: [bool; 4],
    pub asked: Option<Access>,
    pub arrival: u64,
}

/// Looks at an event that is to happen: at what waits need only where they are told.
#[inline(always)]
pub fn look_at(machine: &Machine, clocks: &Clocks, event: Event, told: bool) -> Look
    requires { node_of event < node_count machine.now.image }
    ensures { IsLookAt machine.now clocks.now event told result }
{
    let slot = machine.current(event.node());
    let look = Look {
        slot,
        last: machine.last(event.node()),
        ready: ready_before(machine, event),
        asked: None,
        arrival: 0,
    };
    if !told {
        return look;
    }
    Look {
        asked: asked(machine, event, slot),
        arrival: clocks.arrival(machine.image(), event),
        ..look
    }
}

// Which slots of its node a delivery finds Ready.
#[inline(always)]
fn ready_before(machine: &Machine, event: Event) -> [bool; 4]
    requires { node_of event < node_count machine.now.image }
    ensures { result ≡ for_delivery event (ready_in (node_in machine.now (node_of event)).slots) }
{
    match event {
        Event::Deliver { to, .. } => ready_slots(machine, to),
        Event::Instr { .. } | Event::Handle { .. } | Event::Evict { .. } => [false; 4],
    }
}

/// Which slots of its node have become Ready since a delivery looked at them.
#[inline(always)]
pub fn woken_since(machine: &Machine, event: Event, ready: &[bool; 4]) -> [bool; 4]
    requires { node_of event < node_count machine.now.image }
    ensures { AreWoken event ready.now (node_in machine.now (node_of event)).slots result }
{
    match event {
        Event::Deliver { to, .. } => woken_slots(machine, to, ready),
        Event::Instr { .. } | Event::Handle { .. } | Event::Evict { .. } => [false; 4],
    }
}

// Which slots of a node have become Ready since.
fn woken_slots(machine: &Machine, node: NodeNo, ready: &[bool; 4]) -> [bool; 4]
    requires { node.0 < node_count machine.now.image }
    ensures { (before : List Slot) → ready.now ≡ ready_in before → result ≡ woken_in before (node_in machine.now node.0).slots }
{
    let now = ready_slots(machine, node);
    [
        !ready[0] && now[0],
        !ready[1] && now[1],
        !ready[2] && now[2],
        !ready[3] && now[3],
    ]
}

// Which slots of a node are Ready.
fn ready_slots(machine: &Machine, node: NodeNo) -> [bool; 4]
    requires { node.0 < node_count machine.now.image }
    ensures { result ≡ ready_in (node_in machine.now node.0).slots }
{
    [
        is_ready(machine, node, 0),
        is_ready(machine, node, 1),
        is_ready(machine, node, 2),
        is_ready(machine, node, 3),
    ]
}

// A slot of a node is Ready: none is where there is no such slot.
fn is_ready(machine: &Machine, node: NodeNo, slot: u8) -> bool
    requires { node.0 < node_count machine.now.image }
    ensures { result ≡ is_ready_at (node_in machine.now node.0).slots slot }
{
    let _run = machine.journal(); // for its clause
    slot < machine.image().contexts() && machine.slot(node, slot).status().is_ready()
}

// The access that an event asks for, where it is an instruction and a slot can run.
fn asked(machine: &Machine, event: Event, slot: Option<u8>) -> Option<Access>
    requires node { node_of event < node_count machine.now.image }
    requires slot { slot ≡ running (node_in machine.now (node_of event)).slots (node_in machine.now (node_of event)).current }
    ensures { result ≡ asked_of machine.now slot event }
{
    let _run = machine.journal(); // for its clause
    match (event, slot) {
        (Event::Instr { node }, Some(slot)) => access_of(machine, node, slot),
        _ => None,
    }
}

// The access that the instruction of a slot asks for.
fn access_of(machine: &Machine, node: NodeNo, slot: u8) -> Option<Access>
    requires node { node.0 < node_count machine.now.image }
    requires slot { slot < machine.now.image.contexts }
    ensures { result ≡ asked_at machine.now node.0 slot }
{
    let regs = machine.slot(node, slot).regs();
    let image = machine.image();
    match need(image.code().words(), &regs, image.lines()) {
        Need::Copy { line, mode } => Some(Access { line, mode }),
        _ => None,
    }
}
