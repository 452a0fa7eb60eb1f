// Fields as they stand in a file.
use dsv_base::Items;
use dsv_names::{Field, Setting};
use dsv_token::Tokens;
use std::alloc::Global;

/// Which field an entry is.
#[derive(Clone, Copy, Debug, PartialEq, Eq)]
pub enum Label {
    Field(Field),
    Setting(Setting),
    /// A field of the block `hardware` that is passed over.
    Passed,
}

/// A field of a file: which one, the offsets of its dot and of its value's first byte, and the
/// numbers of its value in their order.
#[derive(Drop)]
pub struct Entry {
    pub label: Label,
    pub dot: usize,
    pub place: usize,
    pub numbers: Tokens,
}

impl Entry {
    ghost use Rattle.std.specs.Prelude.{◌≡◌};
    ghost use Rattle.dsv_syntax.specs.Parsing.{blank_entry};

    /// The entry of no field.
    pub(crate) fn blank_entry(alloc: Global) -> Self
        ensures { result ≡ blank_entry }
    {
        Entry {
            label: Label::Passed,
            dot: 0,
            place: 0,
            numbers: Tokens::new(alloc),
        }
    }
}

/// A list of fields.
pub type Entries = Items<Entry>;
