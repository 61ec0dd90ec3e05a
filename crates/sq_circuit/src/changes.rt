//! The changes of views.
use sq_zset::ZSet;

/// What each view has more or less than before, by the number of the view.
#[derive(Debug, Drop)]
pub struct Changes {
    pub views: Vec<ZSet>,
}
