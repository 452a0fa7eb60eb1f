// Which texts are those of certificates and of ellipsoids.
ghost use Rattle.std.specs.Prelude.{◌≡◌, ℕ, List, Ok};
ghost use Rattle.dsv_certfile.specs.Ellipsoids.{IsLawfulEllipsoid, ellipsoid_in, ellipsoid_text};
ghost use Rattle.dsv_certfile.specs.Lawful.{IsLawful};
ghost use Rattle.dsv_certfile.specs.Reading.{certificate_in};
ghost use Rattle.dsv_certfile.specs.Texts.{certificate_text};
ghost use Rattle.dsv_certfile.specs.declared.certificate.Certificate.{Certificate};
ghost use Rattle.dsv_certfile.specs.declared.ellipsoid.Ellipsoid.{Ellipsoid};

/// The law of [`read`](crate::read), for proofs: each certificate whose numbers are in the ranges
/// of the text is read back from its text, only such certificates are read, and the bytes that one
/// is read from are its text. The call does nothing.
pub fn certificates_are_read()
    ensures back { (c : Certificate) → IsLawful c → certificate_in (certificate_text c) ≡ Ok c }
    ensures lawful { (bytes : List ℕ) (c : Certificate) → certificate_in bytes ≡ Ok c
        → IsLawful c }
    ensures text { (bytes : List ℕ) (c : Certificate) → certificate_in bytes ≡ Ok c
        → bytes ≡ certificate_text c }
{}

/// The law of [`read_ellipsoid`](crate::read_ellipsoid), for proofs: each ellipsoid whose numbers
/// are in the ranges of the text, with 0 in the places that it doesn't write, is read back from its
/// text, only such ellipsoids are read, and the bytes that one is read from are its text. The call
/// does nothing.
pub fn ellipsoids_are_read()
    ensures back { (o : Ellipsoid) → IsLawfulEllipsoid o → ellipsoid_in (ellipsoid_text o) ≡ Ok o }
    ensures lawful { (bytes : List ℕ) (o : Ellipsoid) → ellipsoid_in bytes ≡ Ok o
        → IsLawfulEllipsoid o }
    ensures text { (bytes : List ℕ) (o : Ellipsoid) → ellipsoid_in bytes ≡ Ok o
        → bytes ≡ ellipsoid_text o }
{}
