// The lent blocks that a close reads and leaves.

// The points of the near and of the far years, profile values and daily sums.
#[derive(Clone, Copy)]
pub struct ReadBlocks<'a> {
    pub near: &'a [u32],
    pub far: &'a [u32],
    pub slots: &'a [u16],
    pub daily: &'a [u32],
}
