//! That a listing tells its steps.

ghost use Rattle.nor_listing.specs.Law.{OneListing};
ghost use Rattle.nor_listing.specs.Read.{ListingsAreFaultless, ReadBack};

/// A law: of one meaning and first address mode, a listing has one list of steps. They are steps
/// that a script may have, fewer than 2^64, and each has fewer than 2^64 clocks.
pub fn one_listing()
    ensures { OneListing }
{
    nor_laws::spelling();
}

/// A law: of one meaning and first address mode, whatever [`crate::read_listing`] reads of the
/// listing of some steps, it is these steps.
pub fn listing_read_back()
    ensures { ReadBack }
{
    one_listing();
}

/// A law: [`crate::read_listing`] refuses no listing of its meaning and start, except where a
/// growth of memory is refused.
pub fn faultless_listings()
    ensures { ListingsAreFaultless }
{
    nor_laws::spelling();
}
