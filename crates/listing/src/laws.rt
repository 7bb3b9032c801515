// What a listing tells, as a law of the definition that it is held to.
ghost use Rattle.listing.specs.Apart.{ListingsApart};

use scale::Scale;

// For every scale: no two lists of boxes have one listing. There is nothing to do; the contract is the theorem.
pub fn listings_differ<S: Scale>()
    ensures { ListingsApart S.rank S.text }
{}
