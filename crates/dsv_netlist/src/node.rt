// The nodes of a netlist.
ghost use Rattle.std.specs.Prelude.{◌≡◌, ◌↔◌, ◌≤◌, ◌^◌, IsTrue};
ghost use Rattle.dsv_netlist.specs.Conditions.{NamesBelow, ReadsBelow, gives_word, is_fit};
ghost use Rattle.dsv_netlist.specs.Counts.{is_product, is_sum};

use dsv_word::Format;

/// A node of a netlist. Others are named by their numbers, which count from 0 and are smaller than
/// the node's own.
#[derive(Clone, Copy, Debug, PartialEq, Eq)]
pub enum Node {
    /// The sample's input.
    Input,
    /// The register of this number, as it stood before the sample.
    Reg(u32),
    /// The product of a coefficient and a node.
    MulConst { coeff: i64, of: u32 },
    /// A node divided by 2 to the number of bits after the point, made whole by the format's
    /// rounding.
    Round(u32),
    /// The sum of two nodes.
    Add(u32, u32),
    /// The first node less the second.
    Sub(u32, u32),
    /// The word that a node becomes by the format's overflow.
    Fit(u32),
    /// A node times 2 to the number of bits after the point.
    Scale(u32),
}

/// The word that stands for 1: 2 to the number of bits after the point.
#[tactic(auto, using(crate::proofs::Scaling::powers))]
pub(crate) fn one(format: &Format) -> u64
    ensures value { result ≡ 2 ^ format.now.frac_bits }
    ensures small { result ≤ 2 ^ 47 }
{
    1u64 << format.frac_bits
}

impl Node {
    /// Whether the nodes that it names are among the first `count`.
    pub(crate) fn names_below(&self, count: usize) -> bool
        ensures { IsTrue result ↔ NamesBelow count self.now }
    {
        match self {
            Node::Input | Node::Reg(_) => true,
            Node::MulConst { of, .. } | Node::Round(of) | Node::Fit(of) | Node::Scale(of) => {
                (*of as usize) < count
            }
            Node::Add(left, right) | Node::Sub(left, right) => {
                (*left as usize) < count && (*right as usize) < count
            }
        }
    }

    /// Whether a register that it reads is among the first `count`.
    pub(crate) fn reads_below(&self, count: usize) -> bool
        ensures { IsTrue result ↔ ReadsBelow count self.now }
    {
        match self {
            Node::Reg(register) => (*register as usize) < count,
            _ => true,
        }
    }

    /// Whether its value is a word.
    pub(crate) fn gives_word(&self) -> bool
        ensures { result ≡ gives_word self.now }
    {
        matches!(self, Node::Input | Node::Reg(_) | Node::Fit(_))
    }

    /// Whether it fits a value.
    pub(crate) fn is_fit(&self) -> bool
        ensures { result ≡ is_fit self.now }
    {
        matches!(self, Node::Fit(_))
    }

    /// Whether it is a product.
    pub(crate) fn is_product(&self) -> bool
        ensures { result ≡ is_product self.now }
    {
        matches!(self, Node::MulConst { .. })
    }

    /// Whether it is a sum or a difference.
    pub(crate) fn is_sum(&self) -> bool
        ensures { result ≡ is_sum self.now }
    {
        matches!(self, Node::Add(..) | Node::Sub(..))
    }
}
