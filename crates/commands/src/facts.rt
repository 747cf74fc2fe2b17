//! What must be known of a job before it is done.

ghost use Rattle.std.specs.Prelude.{◌≡◌};
ghost use Rattle.commands.specs.Facts.{for_node, on_image, on_lines, plain, serves_lines, shows};

use machine::MapSizes;

/// What must be known of a job before it is done.
#[derive(Clone, Copy, Debug)]
pub struct Facts {
    /// Whether what its options say of a node may be left to a node's file.
    pub takes_file: bool,
    /// Whether the lines that it reads are those of a dump, which are read as its packet lines.
    pub is_dump: bool,
    /// Whether it takes the lines of standard input as they come.
    pub talks: bool,
    /// Whether it starts threads.
    pub starts_threads: bool,
    /// The maps for which it takes the text of a program or a table in the place of an image, if it does.
    pub maps: Option<MapSizes>,
}

impl Facts {
    /// Of a job that has none of these.
    pub fn plain() -> Facts
        ensures { result ≡ plain }
    {
        Facts {
            takes_file: false,
            is_dump: false,
            talks: false,
            starts_threads: false,
            maps: None,
        }
    }

    /// Of one whose options may be left to a node's file.
    pub fn for_node() -> Facts
        ensures { result ≡ for_node }
    {
        Facts {
            takes_file: true,
            is_dump: false,
            talks: false,
            starts_threads: false,
            maps: None,
        }
    }

    /// Of one on lines, for a node with maps of these sizes.
    pub fn on_lines(sizes: MapSizes) -> Facts
        ensures { result ≡ on_lines sizes }
    {
        Facts {
            takes_file: false,
            is_dump: false,
            talks: false,
            starts_threads: false,
            maps: Some(sizes),
        }
    }

    /// Of one that serves lines in threads, for a node with maps of these sizes.
    pub fn serves_lines(sizes: MapSizes) -> Facts
        ensures { result ≡ serves_lines sizes }
    {
        Facts {
            takes_file: false,
            is_dump: false,
            talks: false,
            starts_threads: true,
            maps: Some(sizes),
        }
    }

    /// Of one on an image, for a node with maps of these sizes, or of a node's file.
    pub fn on_image(sizes: MapSizes) -> Facts
        ensures { result ≡ on_image sizes }
    {
        Facts {
            takes_file: true,
            is_dump: false,
            talks: false,
            starts_threads: false,
            maps: Some(sizes),
        }
    }

    /// Of one that says what lines are: whether they are those of a dump, and whether they are those of standard input.
    pub fn shows(is_dump: bool, talks: bool) -> Facts
        ensures { result ≡ shows is_dump talks }
    {
        Facts {
            takes_file: false,
            is_dump,
            talks,
            starts_threads: false,
            maps: None,
        }
    }
}
