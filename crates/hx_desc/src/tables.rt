//! What is kept while a description is read.
use hx_cluster::Resource;
use hx_ids::Names;
use hx_lists::Seq;

/// Resources and their names.
#[derive(Drop)]
pub struct ResourceTable {
    pub names: Names,
    pub resources: Seq<Resource>,
}
