//! The word `unroll`: the feed of the jobs of periodic tasks is written.
mod answering;
mod feeds;

pub(crate) use answering::answer;
