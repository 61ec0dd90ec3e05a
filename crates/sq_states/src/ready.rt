//! What is prepared of the traces of a node, before it is committed.
use sq_agg::Acc;
use sq_trace::Prepared;

/// What is prepared of the traces of a node; none of a trace that does not change.
#[derive(Debug, Drop)]
pub enum ReadyTraces {
    /// The node keeps nothing.
    Nothing,
    /// Of a Table or a Distinct.
    Rows {
        rows: Option<Prepared<i64>>,
    },
    /// Of a Join.
    Sides {
        left: Option<Prepared<i64>>,
        right: Option<Prepared<i64>>,
    },
    /// Of an Aggregate.
    Groups {
        acc: Option<Prepared<Acc>>,
        ordered: Option<Prepared<i64>>,
        shown: Option<Prepared<i64>>,
    },
}

/// What is prepared of one node in one shard.
#[derive(Debug, Drop)]
pub struct Ready {
    /// The number of the node.
    pub node: u32,
    /// What is prepared of its traces.
    pub traces: ReadyTraces,
}
