//! What lies outside: lists, files to read and sinks to write, in memory and of the host.
//!
//! The lowest layer. It stands on the kit's libraries alone, and everything above reaches files and
//! standard output through its two traits, `Files` and `Sink`. Faults are counted, so that each layer
//! above can say that a fault is the outside's: `specs/Fault.antt` says what "the count rose" means,
//! `specs/Content.antt` what files contain, `specs/Limit.antt` how long a file may be, `specs/Taken.antt` what a
//! sink takes and `specs/Pieces.antt` what the writer of a text does to it.
#![tactic(auto)]

mod bytes;
mod count;
mod fault;
mod files;
mod host_files;
mod host_out;
mod laws;
mod listed;
mod mem_files;
mod mem_sink;
mod memory;
mod name;
mod named_file;
mod reading;
mod shelf;
mod sink;
mod sure_files;
mod writing;

pub use bytes::Bytes;
pub use fault::{Failed, FileFault, OpenFault};
pub use files::Files;
pub use host_files::HostFiles;
pub use host_out::HostOut;
pub use laws::memory_is_sure;
pub use listed::Listed;
pub use mem_files::MemFiles;
pub use mem_sink::MemSink;
pub use memory::NoMemory;
pub use named_file::NamedFile;
pub use reading::{FILE_LIMIT, read_all};
pub use sink::Sink;
pub use sure_files::SureFiles;
pub use writing::{write_all, write_pieces};

#[cfg(test)]
mod tests;
