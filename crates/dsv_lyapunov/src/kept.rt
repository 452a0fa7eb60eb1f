// Offers that were refused.
use dsv_base::Items;
use dsv_forms::{FormOffer, FormRefusal};

/// An offer that was refused, and why.
#[derive(Clone, Copy, Debug, PartialEq, Eq)]
pub struct KeptForm {
    pub offer: FormOffer,
    pub refusal: FormRefusal,
}

/// Offers that were refused, in the order in which they came.
pub type KeptForms = Items<KeptForm>;
