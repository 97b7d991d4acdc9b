ghost use Rattle.std.specs.Prelude.{◌≡◌, ◌<◌, ◌≤◌, ◌↔◌, IsNone};
ghost use Rattle.std.specs.Option.{option_map};
ghost use Rattle.mesh_route.specs.Routes.{next_on, port_from};

use crate::ports::Port;
use alw_num::{MOST_NODES, MOST_SIDE, NodeNo};

/// The node behind `at` on the route to `to`, in a mesh of this width: along the row to the right
/// column, and then along that column. None exactly where `at` is `to`.
pub fn route_next(at: NodeNo, to: NodeNo, width: u8) -> Option<NodeNo>
    requires narrow { 1 ≤ width }
    requires wide { width ≤ MOST_SIDE }
    requires at { at.0 < MOST_NODES }
    requires to { to.0 < MOST_NODES }
    ensures next { option_map (λ node. node.0) result ≡ next_on width at.0 to.0 }
    ensures none { IsNone result ↔ (at.0 ≡ to.0) }
{
    let width = u16::from(width);
    let (column, row) = (at.0 % width, at.0 / width);
    let (to_column, to_row) = (to.0 % width, to.0 / width);
    if column < to_column {
        Some(NodeNo(at.0 + 1))
    } else if to_column < column {
        Some(NodeNo(at.0 - 1))
    } else if row < to_row {
        Some(NodeNo(at.0 + width))
    } else if to_row < row {
        Some(NodeNo(at.0 - width))
    } else {
        None
    }
}

/// The queue of a node in which a message from a neighbour arrives, in a mesh of this width.
pub fn port_from(neighbour: NodeNo, node: NodeNo, width: u8) -> Port
    requires { 1 ≤ width }
    ensures { result ≡ port_from width neighbour.0 node.0 }
{
    let width = u16::from(width);
    let (from_column, from_row) = (neighbour.0 % width, neighbour.0 / width);
    let (column, row) = (node.0 % width, node.0 / width);
    if from_column < column {
        Port::West
    } else if column < from_column {
        Port::East
    } else if from_row < row {
        Port::North
    } else {
        Port::South
    }
}
