//! What answers say of claims, and what skipped files don't change of that; and what verdicts are where rules are enforced.

ghost use Rattle.aa_assert.specs.Enforced.{EnforcedVerdicts};
ghost use Rattle.aa_assert.specs.Holding.{ClearClaimsHold, ToldBreak, ToldApart, QuietAnswersCountAll, ToldFail, ToldWaysBreak, ClaimsEnforced, WaysEnforced, ClaimsHold, FreeClaimsHold, BreakingsStand, EndingsStand, WaysStand, ArrivalsStand};
ghost use Rattle.aa_assert.specs.Unbreakable.{UnbreakableHold};

use aa_quantifiers::closed_words_are_decided;
use aa_skipped::each_file_decides;

/// A claim that nobody breaks whom it is about, where that can be told of everybody and no skipped file could break it, holds; and each of
/// whom it is told that he breaks a claim is one whom it is about, and breaks it. So far as requests count: those at unclean paths do where
/// that is wanted; but where nobody is told, apart neither, and all of lists that lead somewhere, the answer is as if they did. A claim that no
/// list leads somewhere isn't said to hold where one does, past labels of which that can be told. It does nothing: its contract is a law of
/// the definitions.
pub fn answers_tell_what_holds()
    ensures clear { ClearClaimsHold }
    ensures told { ToldBreak }
    ensures apart { ToldApart }
    ensures quiet { QuietAnswersCountAll }
    ensures broken { ToldFail }
    ensures ways { ToldWaysBreak }
{
    closed_words_are_decided()
}

/// Whatever profiles the skipped files have, as long as they have the heads that are known and a policy of them and the read ones is lawful:
/// a claim that is neither broken nor undecided, and of which all can be told, is broken by no request that counts of anybody whom it is about,
/// nor by a list of such; and a request by which one is broken breaks it there, and so do requests one after another: they lead to the same
/// profile, which is another than that where they begin. It does nothing: its contract is a law of the definitions.
pub fn claims_are_sound()
    ensures claims { ClaimsHold }
    ensures free { FreeClaimsHold }
    ensures broken { BreakingsStand }
    ensures ended { EndingsStand }
    ensures led { WaysStand }
    ensures comes { ArrivalsStand }
{
    each_file_decides();
    closed_words_are_decided()
}

/// The verdict on a request where rules are enforced tells the mediator's answer by the policies whose complain flags are cleared; and a claim on
/// requests, or on lists of these, is broken exactly where it is by such policies, in which the mediator's answers lead as the lists do. It does
/// nothing: its contract is a law of the definitions.
pub fn verdicts_are_enforced()
    ensures verdicts { EnforcedVerdicts }
    ensures claims { ClaimsEnforced }
    ensures ways { WaysEnforced }
{}

/// A claim that is refused since nothing can break it holds by each policy whose profiles are called as those that are read, and are children of
/// the same: whatever their rules, attachments and flags are. It does nothing: its contract is a law of the definitions.
pub fn unbreakable_claims_hold()
    ensures { UnbreakableHold }
{}
