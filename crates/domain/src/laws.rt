// What lists of boxes cover, as laws of the definitions that the lists are held to.
ghost use Rattle.domain.specs.Covering.{AddingCovers, JoinCovers, MeetCovers, NeverTooMany};

use scale::Scale;

// For every scale and any number of limits: adding keeps the union, join covers the union and meet the intersection, and
// no list passes its bound. There is nothing to do; the contract is the theorem.
pub fn lists_cover<S: Scale>()
    ensures adding { AddingCovers S.rank }
    ensures join { JoinCovers S.rank }
    ensures meet { MeetCovers S.rank }
    ensures bound { NeverTooMany S.rank }
{}
