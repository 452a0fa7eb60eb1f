// What a proposer is told of the controller.

/// The registers of a controller and its words: there are `registers` of them, of which the first
/// `past_inputs` hold earlier inputs; words are from `lo` to `hi`, and inputs from `xlo` to `xhi`.
#[derive(Clone, Copy, Debug, PartialEq, Eq)]
pub struct Shape {
    pub registers: u32,
    pub past_inputs: u32,
    pub lo: i64,
    pub hi: i64,
    pub xlo: i64,
    pub xhi: i64,
}
