// What the check of an offer reads.
ghost use Rattle.dsv_forms.specs.OfferLaws.{AreReadInPlaces, AcceptedAreNarrow};

/// The law of [`check_falls`](crate::check_falls), for proofs: it reads the numbers of an offer's
/// places alone, and those of an accepted offer are less than 2^126 in size. The call does nothing.
pub fn offers_are_read_in_their_places()
    ensures places { AreReadInPlaces }
    ensures narrow { AcceptedAreNarrow }
{}
