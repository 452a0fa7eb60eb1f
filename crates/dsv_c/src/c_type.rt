// C's integer types.
ghost use Rattle.std.specs.Prelude.{◌≡◌};
ghost use Rattle.dsv_c.specs.Meaning.{wider_type};

/// A signed integer type of C99: `int`, of at least 16 bits, and `int32_t` and `int64_t` of
/// `<stdint.h>`.
#[derive(Clone, Copy, Debug, PartialEq, Eq)]
pub enum CType {
    Int,
    Int32,
    Int64,
}

/// The wider of two types.
pub fn wider_type(left: CType, right: CType) -> CType
    ensures { result ≡ wider_type left right }
{
    match (left, right) {
        (CType::Int, other) => other,
        (CType::Int32, CType::Int64) => CType::Int64,
        (CType::Int32, _) => CType::Int32,
        (CType::Int64, _) => CType::Int64,
    }
}
