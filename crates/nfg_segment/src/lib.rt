//! The grapheme clusters of a text that comes in pieces.
#![tactic(auto)]

pub use clusters::Clusters;
pub use segmenter::Segmenter;
pub use sink::ClusterSink;

mod clusters;
mod composer;
mod draft;
mod held;
mod marked_run;
mod open_cluster;
mod open_reach;
mod plain;
mod segmenter;
mod settled_run;
mod sink;
#[cfg(test)]
mod tests;
mod texts;
