//! Values that are put in place of others.

ghost use Rattle.std.specs.Prelude.{◌≡◌};

/// Puts a value in place of another one, which is dropped. It is generic so that the drop of a value of many parts is not proved anew
/// wherever one is put.
pub(crate) fn put<T: Drop>(place: &mut T, value: T)
    ensures { place.new ≡ value }
{
    *place = value;
}
