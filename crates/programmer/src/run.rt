use inline_vec::InlineVec;

/// A run of a function, with the cells that it holds. No call starts one yet.
#[derive(Clone, Copy)]
pub struct Run {
    pub(crate) cells: InlineVec<u32, 512>,
}
