use alw_image::{Bodies, Code, Image, LineList, Params, Parts, Starts};
use alw_node::{Node, Share};
use alw_num::{Line, LineNo, NodeNo};
use std::alloc::Global;
use std::test::Fail;

// One context loads from a line, and the other one stores to it.
const LOAD_AND_STORE: [u32; 6] = [
    0x0310_0000,
    0xd000_4000,
    0x91d0_2000,
    0x0310_0000,
    0xd220_4000,
    0x91d0_2000,
];

// A line of ones.
const ONES: Line = Line {
    a: 1,
    b: 1,
    c: 1,
    d: 1,
};

// Two nodes of two contexts and four lines each, with data, starts and Trap-Always lines at both.
fn two_nodes(alloc: Global) -> Result<Option<Image>, Fail> {
    let bodies = [(LineNo(0), ONES), (LineNo(3), ONES), (LineNo(4), ONES)];
    let starts = [(NodeNo(0), 1, 0), (NodeNo(1), 0, 4), (NodeNo(1), 1, 8)];
    let code = Code::from_slice(alloc, &LOAD_AND_STORE)?;
    let bodies = Bodies::from_slice(alloc, &bodies)?;
    let starts = Starts::from_slice(alloc, &starts)?;
    let always = LineList::from_slice(alloc, &[3, 4, 7])?;
    Ok(Image::from_parts(Parts {
        width: 2,
        height: 1,
        contexts: 2,
        per_node: 4,
        code,
        bodies,
        starts,
        always,
    }))
}

// Node 1 of an image.
fn node_one(alloc: Global, image: &Image, params: &Params) -> Result<Node, Fail> {
    if image.width() < 2 || image.height() < 1 {
        return Err("no second node".into());
    }
    Ok(Node::start(alloc, image, params, NodeNo(1))?)
}

// The second one of these nodes.
fn second_node(alloc: Global) -> Result<Node, Fail> {
    let image = two_nodes(alloc)?.ok_or("no image")?;
    let params = Params::new(4, 16, 100, 0).ok_or("no parameters")?;
    node_one(alloc, &image, &params)
}

// The sizes of a share.
fn sizes_of(share: &Share) -> (u8, u8, u8, u16) {
    (
        share.width(),
        share.height(),
        share.contexts(),
        share.per_node(),
    )
}

// It has its own lines and contexts, and all code.
#[test]
fn a_share_is_what_the_node_reads(rt: HostRuntime) -> Result<(), Fail> {
    let node = second_node(rt.alloc())?;
    let share = node.share();
    assert_eq!(rt; sizes_of(share), (2, 1, 2, 4));
    assert_eq!(rt; share.code().words(), LOAD_AND_STORE.as_slice());
    assert_eq!(rt; share.bodies().members(), [(LineNo(4), ONES)].as_slice());
    let starts = [(NodeNo(1), 0, 4), (NodeNo(1), 1, 8)];
    assert_eq!(rt; share.starts().members(), starts.as_slice());
    assert_eq!(rt; share.always().members(), [4, 7].as_slice());
    Ok(())
}
