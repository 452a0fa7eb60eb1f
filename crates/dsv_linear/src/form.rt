// Linear forms: a coefficient for each symbol.
//
// Affine arithmetic (Comba and Stolfi 1993; de Figueiredo and Stolfi 2004): a value is a linear
// form over symbols, which are the inputs and one error for each rounded product, and each symbol
// has a range. Unlike with plain intervals, what two values share cancels in their difference.
// Coefficients are whole numbers over the scale 2^53. Nearly all that are kept have 64 bits, and
// then take half the room and a fraction of the time.
ghost use Rattle.std.specs.Prelude.{◌≡◌, ◌++◌, ◌∷◌, [], List, ℤ, length, IfOk, IfSome};
ghost use Rattle.dsv_netlist.specs.Nodes.{at};

use dsv_algebra::NarrowInteger;
use dsv_base::{Items, NoMemory};
use std::alloc::Global;
use std::marker::Model;

/// A coefficient for each symbol, 0 for those after the list's end: the scale times a value is the
/// sum of its form's coefficients, each times its symbol.
#[derive(Drop)]
pub struct Form {
    /// The first coefficients.
    short: Items<i64>,
    /// Those after them, of any size.
    wide: Items<NarrowInteger>,
}

impl Model for Form {
    ghost Value = { List ℤ };

    ghost view = { λ form. form.short ++ form.wide };
}

/// The number, where it has 64 bits.
pub(crate) fn short_number(v: NarrowInteger) -> Option<i64>
    ensures { IfSome result (λ short. short ≡ v) }
{
    i64::try_from(v.get()).ok()
}

/// No items yet, with room for so many.
pub(crate) fn room_for<T>(alloc: Global, count: usize) -> Result<Items<T>, NoMemory>
    ensures { IfOk result (λ list. list ≡ []) }
{
    Ok(Items::from(Vec::with_capacity(alloc, count)?))
}

impl Form {
    /// The form of 0.
    pub fn new(alloc: Global) -> Self
        ensures { result ≡ [] }
    {
        Form {
            short: Items::new(alloc),
            wide: Items::new(alloc),
        }
    }

    /// A form of coefficients of 64 bits.
    pub(crate) fn from_short(alloc: Global, short: Items<i64>) -> Self
        ensures { result ≡ short }
    {
        Form {
            short,
            wide: Items::new(alloc),
        }
    }

    /// A form of coefficients of any size.
    pub fn from_wide(alloc: Global, wide: Items<NarrowInteger>) -> Self
        ensures { result ≡ wide }
    {
        Form {
            short: Items::new(alloc),
            wide,
        }
    }

    /// The form with a coefficient more.
    pub(crate) fn push(&mut self, c: i64) -> Result<(), NoMemory>
        ensures { IfOk result (λ u. self.new ≡ self.old ++ c ∷ []) }
    {
        if self.wide.is_empty() {
            self.short.push(c)
        } else {
            self.wide.push(NarrowInteger::from(c))
        }
    }

    /// How many coefficients it has.
    pub(crate) fn len(&self) -> usize
        ensures { result ≡ length self.now }
    {
        self.short.as_slice().len() + self.wide.as_slice().len()
    }

    /// Its coefficients, where all are kept in 64 bits.
    pub(crate) fn as_short(&self) -> Option<&[i64]>
        ensures { IfSome result (λ list. list.now ≡ self.now) }
    {
        if self.wide.is_empty() {
            Some(self.short.as_slice())
        } else {
            None
        }
    }

    /// Its coefficients, where none is kept in 64 bits.
    pub(crate) fn as_wide(&self) -> Option<&[NarrowInteger]>
        ensures { IfSome result (λ list. list.now ≡ self.now) }
    {
        if self.short.is_empty() {
            Some(self.wide.as_slice())
        } else {
            None
        }
    }

    /// The coefficient of a symbol.
    pub fn coefficient(&self, j: usize) -> NarrowInteger
        ensures { result ≡ at self.now j }
    {
        let short = self.short.as_slice();
        let wide = self.wide.as_slice();
        if j < short.len() {
            NarrowInteger::from(short[j])
        } else if j - short.len() < wide.len() {
            wide[j - short.len()]
        } else {
            NarrowInteger::from(0i64)
        }
    }

    /// The form, copied.
    pub fn copy(&self, alloc: Global) -> Result<Form, NoMemory>
        ensures { IfOk result (λ form. form ≡ self.now) }
    {
        Ok(Form {
            short: Items::from_slice(alloc, self.short.as_slice())?,
            wide: Items::from_slice(alloc, self.wide.as_slice())?,
        })
    }
}
