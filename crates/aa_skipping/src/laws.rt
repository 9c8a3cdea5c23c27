//! What profiles that weren't read don't change.

ghost use Rattle.aa_skipping.specs.Laws.{AnswersStand, RunsStand, SearchesStand, NamesStand};

/// Whatever the profiles are that weren't read, as long as they have the heads that are known and a policy of them and the read ones is lawful:
/// it answers each request that isn't undecided as the read ones do, grants, scrubs and notes the same, and leads to the same profile; so it does
/// requests one after another up to the first undecided one; and so do each search that isn't open and each name that isn't in doubt. It does
/// nothing: its contract is a law of the definitions.
pub fn skipping_is_sound()
    ensures answers { AnswersStand }
    ensures runs { RunsStand }
    ensures searches { SearchesStand }
    ensures names { NamesStand }
{}
