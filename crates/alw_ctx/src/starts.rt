ghost use Rattle.std.specs.Prelude.{◌≡◌, ◌<◌, ◌≤◌, map, take};
ghost use Rattle.alw_image.specs.Images.{node_count};
ghost use Rattle.alw_model.specs.Contexts.{slot_start, slots_start};
ghost use Rattle.alw_ctx.specs.Residents.{slot_of, slots_of};

use crate::residents::Resident;
use alw_image::Image;
use alw_msg::Status;
use alw_num::NodeNo;
use sparc_table::Regs;

// A place without a context.
const NOBODY: Resident = Resident {
    regs: Regs {
        r: [0; 32],
        y: 0,
        n: false,
        z: false,
        v: false,
        c: false,
        pc: 0,
        npc: 4,
    },
    status: Status::Halted,
    hold: None,
};

/// The contexts of a node at the start, in four places, of which the image's number of contexts is
/// used.
pub fn residents(image: &Image, node: NodeNo) -> [Resident; 4]
    requires { node.0 < node_count image.now }
    ensures { slots_of image.now.contexts result ≡ slots_start image.now node.0 }
{
    let _allowed = image.code(); // for its clause
    let mut places = [NOBODY; 4];
    for slot in 0..image.contexts() {
        places[slot as usize] = resident(image, node, slot);
    }
    places
}

// The context of a slot at the start: halted where the image has no start for it.
fn resident(image: &Image, node: NodeNo, slot: u8) -> Resident
    requires node { node.0 < node_count image.now }
    requires slot { slot < image.now.contexts }
    ensures { slot_of result ≡ slot_start image.now node.0 slot }
{
    let contexts = u32::from(image.contexts());
    let number = u32::from(node.0) * contexts + u32::from(slot);
    let (pc, status) = match image.start(number) {
        Some(pc) => (pc, Status::Ready),
        None => (0, Status::Halted),
    };
    Resident {
        regs: Regs::start(pc, number, image.all_contexts()),
        status,
        hold: None,
    }
}
