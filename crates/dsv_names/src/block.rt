// The blocks of a controller file.
use crate::Named;

/// The blocks of a controller file.
#[derive(Clone, Copy, Debug, PartialEq, Eq)]
pub enum Block {
    /// The transfer function.
    System,
    /// The words, the inputs and delta.
    Implementation,
    /// The clock and what operations cost.
    Hardware,
}

impl Named for Block {
    ghost use Rattle.dsv_names.specs.Blocks.{block_name, blocks};

    ghost name_of = { block_name };

    ghost all_values = { blocks };

    fn name(self) -> &'static str {
        match self {
            Block::System => "digital_system",
            Block::Implementation => "implementation",
            Block::Hardware => "hardware",
        }
    }

    fn all() -> &'static [Block] {
        &[Block::System, Block::Implementation, Block::Hardware]
    }
}
