//! What paths and names that the same patterns match are answered.

ghost use Rattle.std.specs.Prelude.{ℕ, List};
ghost use Rattle.aa_model.specs.declared.policy.Policy.{Policy};
ghost use Rattle.aa_model.specs.declared.label.Label.{Label};
ghost use Rattle.aa_representatives.specs.Alike.{deciding, changing, MatchAlike, NameAlike, FilesAlike, ExecsAlike, LinksAlike, ChangesAlike};

/// Requests that differ in their paths alone get the same reply where the same patterns match the paths, of those that decide
/// at the label: of the file rules of its profile, of the attachments of the top-level profiles and of its children. So do
/// changes to two names that the same patterns of its rules on changes match, where both name one label or none. It does nothing:
/// its contract is a law of the definitions.
pub fn alike_paths_reply_alike()
    ensures files { (policies : List Policy) (label : Label) (s u : List ℕ) → MatchAlike (deciding policies label) s u → FilesAlike policies label s u }
    ensures execs { (policies : List Policy) (label : Label) (s u : List ℕ) → MatchAlike (deciding policies label) s u → ExecsAlike policies label s u }
    ensures links { (policies : List Policy) (label : Label) (s u v w : List ℕ) → MatchAlike (deciding policies label) s u → MatchAlike (deciding policies label) v w → LinksAlike policies label s u v w }
    ensures changes { (policies : List Policy) (label : Label) (s u : List ℕ) → MatchAlike (changing policies label) s u → NameAlike policies label s u → ChangesAlike policies label s u }
{}
