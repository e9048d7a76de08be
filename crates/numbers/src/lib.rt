// Numbers and texts: read from a file's bytes, and written into bytes that the caller lends.
#![tactic(auto)]

pub mod fault;
pub mod number;
pub mod writer;

pub use writer::Writer;
