use alw_image::{Bodies, Code, Image, LineList, Parts, Starts};
use std::alloc::Global;
use std::test::Fail;

/// Five is stored at the first address of shared data, loaded and printed.
pub const LINK_TO_ITSELF: [u32; 7] = [
    0x0310_0000,
    0x9010_2005,
    0xd020_4000,
    0x9010_0000,
    0xd000_4000,
    0x91d0_2001,
    0x91d0_2000,
];

/// The sizes of a machine.
#[derive(Clone, Copy)]
pub struct Sizes {
    pub width: u8,
    pub height: u8,
    pub contexts: u8,
    pub per_node: u16,
}

/// One node with one context and one line.
pub const ONE_NODE: Sizes = Sizes {
    width: 1,
    height: 1,
    contexts: 1,
    per_node: 1,
};

/// An image without data: its sizes, up to a hundred words of code, its starts, and as many Trap-Always
/// lines.
pub fn image_of(
    alloc: Global,
    sizes: Sizes,
    words: &[u32],
    starts: Starts,
    always: &[u32],
) -> Result<Image, Fail> {
    if words.len() > 100 || always.len() > 100 {
        return Err("too long".into());
    }
    let image = Image::from_parts(Parts {
        width: sizes.width,
        height: sizes.height,
        contexts: sizes.contexts,
        per_node: sizes.per_node,
        code: Code::from_slice(alloc, words)?,
        bodies: Bodies::empty(alloc),
        starts,
        always: LineList::from_slice(alloc, always)?,
    });
    Ok(image.ok_or("no image")?)
}
