//! What two lists of policies without a difference answer.

ghost use Rattle.std.specs.Prelude.{List, All};
ghost use Rattle.aa_model.specs.declared.policy.Policy.{Policy};
ghost use Rattle.aa_model.specs.declared.label.Label.{Label};
ghost use Rattle.aa_model.specs.declared.request.Request.{Request};
ghost use Rattle.aa_representatives.specs.Askable.{IsAskable};
ghost use Rattle.aa_differences.specs.Sameness.{SameBodiesReplyAlike};
ghost use Rattle.aa_differences.specs.Same.{SameLabel, SamePolicies, SameAnswers, answers_to};

/// Where two lists of policies answer each request the same, they answer every list of requests the same, one after another, from
/// labels that are called the same. It does nothing: its contract is a law of the definitions.
pub fn same_policies_run_alike()
    ensures { (ps qs : List Policy) → SamePolicies ps qs → (l m : Label) → SameLabel ps qs l m → (rs : List Request) → All IsAskable rs → SameAnswers ps qs (answers_to ps l rs) (answers_to qs m rs) }
{}

/// Where two lists of policies have the same profiles by names, parents and attachments in one order, a profile with the same flags
/// and rules answers alike in both, whatever else differs. It does nothing: its contract is a law of the definitions.
pub fn same_bodies_reply_alike()
    ensures { SameBodiesReplyAlike }
{}
