ghost use Rattle.std.specs.Prelude.{◌≡◌, ◌<◌, ℕ, List, true};
ghost use Rattle.mesh_route.specs.Meshes.{Mesh, Act, count_of};
ghost use Rattle.mesh_route.specs.Deliveries.{is_idle, MeshIsAfter, ArrivalsAreInOrder, AllAreDelivered};

/// After every list of injections and hops each pair's arrivals are the first of its injected
/// messages, and the others stand in the queues on its route, in order.
pub fn routers_keep_order()
    ensures { (mesh : Mesh) (from to : ℕ) → from < count_of mesh → to < count_of mesh → ArrivalsAreInOrder mesh from to }
{}

/// Once all queues are empty each pair's arrivals are its injected messages, and each wire was
/// crossed by the messages whose route goes over it.
pub fn idle_routers_have_delivered()
    ensures { (acts : List Act) (mesh : Mesh) → MeshIsAfter acts mesh → is_idle mesh ≡ true → AllAreDelivered acts mesh }
{}
