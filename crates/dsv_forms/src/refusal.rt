// Why an offer isn't accepted.

/// A part of an offer.
#[derive(Clone, Copy, Debug, PartialEq, Eq)]
pub enum OfferPart {
    Form,
    Positive,
    Fall,
    Start,
}

/// What is wrong with an offer, at its first place. Places count from 0.
#[derive(Clone, Copy, Debug, PartialEq, Eq)]
pub enum FormRefusal {
    /// The squares and the rest don't add up to m times the form's entry.
    Identity { part: OfferPart, i: u32, j: u32 },
    /// A weight isn't positive.
    Weight { part: OfferPart, i: u32 },
    /// A row isn't 0 before its own place, or is 0 there.
    Triangle { part: OfferPart, i: u32 },
    /// A diagonal entry of the rest is less than the sizes of the others in its row.
    Dominance { part: OfferPart, i: u32 },
    /// A number on the way passes 2^126.
    Wide { part: OfferPart, i: u32, j: u32 },
    /// The form isn't negative at the start.
    StartNotNegative { value: i128 },
    /// The number of places or of squares isn't the one that is wanted, or a matrix isn't
    /// symmetric.
    Shape { part: OfferPart },
}
