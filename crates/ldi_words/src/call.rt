//! The calls that a command line can make.

use ldmodel::options::Options;

/// A call of `ldi`: one of its subcommands, with its arguments.
#[derive(Debug, Drop)]
pub enum Call {
    /// `ldi session`: link again after each edit that comes by standard input.
    Session(Options),
    /// `ldi session --deferred`: link the edits that come by standard input when it is asked.
    DeferredSession(Options),
    /// `ldi link`: link once.
    Link {
        /// The file of the linker script.
        script: String,
        /// The file that the image is written to.
        image: String,
        /// The file that the map is written to, if any.
        map: Option<String>,
        /// The options of the link.
        options: Options,
        /// The files of the objects, in their order.
        objects: Vec<String>,
    },
}
