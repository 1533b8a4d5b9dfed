//! What can be asked for.

/// What the words ask for.
#[derive(Clone, Copy)]
pub enum Command<'a> {
    /// The built-in machine on the image of that name, for so many turns.
    Bare {
        image: &'a str,
        turns: u64,
    },
    /// The canonical blob of the tree in the file of that name.
    Dtb {
        file: &'a str,
    },
    /// Whether the configuration in the first file is accepted on the hardware in the second.
    Check {
        config: &'a str,
        hw: &'a str,
    },
    /// The guest tree of the partition of that name, of a configuration that is accepted likewise.
    Guest {
        config: &'a str,
        hw: &'a str,
        name: &'a str,
    },
    /// The run of the partitions of a configuration that is accepted likewise, on the script in the third file, for so many turns.
    Run {
        config: &'a str,
        hw: &'a str,
        script: &'a str,
        turns: u64,
    },
    /// The summary of the run of the bundle that the number makes, for so many turns.
    Gen {
        number: u64,
        turns: u64,
    },
}
