//! What is kept of an aggregate whose steps are followed. It stands outside the tests, since definitions speak of it.
use sq_agg::Acc;
use sq_trace::Trace;
use sq_zset::ZSet;

/// Rows, and what an aggregate keeps of them.
#[derive(Debug, Drop)]
pub struct Kept {
    pub rows: ZSet,
    pub acc: Trace<Acc>,
    pub ordered: Trace<i64>,
    pub shown: Trace<i64>,
}

/// What is kept after a change, what changed of the answer, and the steps that it took.
#[derive(Debug, Drop)]
pub struct Followed {
    pub kept: Kept,
    pub change: ZSet,
    pub count: u64,
}
