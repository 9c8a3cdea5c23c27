//! What policies that are the same answer.

ghost use Rattle.std.specs.Prelude.{◌≡◌, ℕ, Bool, List};
ghost use Rattle.std.specs.List.{AllZip};
ghost use Rattle.aa_model.specs.declared.policy.Policy.{Policy};
ghost use Rattle.aa_model.specs.declared.label.Label.{Label};
ghost use Rattle.aa_model.specs.declared.request.Request.{Request};
ghost use Rattle.aa_jobs.specs.declared.job.Task.{Task};
ghost use Rattle.aa_jobs.specs.declared.job.Event.{Event};
ghost use Rattle.aa_policy.specs.Sameness.{SamePolicy};
ghost use Rattle.aa_policy.specs.Spelling.{Spells};
ghost use Rattle.aa_words.specs.Splits.{WordData};
ghost use Rattle.aa_mediate.specs.Reply.{reply};
ghost use Rattle.aa_engine.specs.Output.{run_text, check_text};
ghost use Rattle.aa_engine.specs.Replay.{replay_text};

/// Lists of policies, each the same as the other in its place but for where patterns lie in memory, give the same replies. It
/// does nothing: its contract is a law of the definitions.
pub fn same_policies_reply_alike()
    ensures { (policies others : List Policy) → AllZip SamePolicy policies others → (label : Label) (request : Request) → reply policies label request ≡ reply others label request }
{}

/// For them `run` writes the same text, whatever the tasks. It does nothing: its contract is a law of the definitions.
pub fn same_policies_run_alike()
    ensures { (policies others : List Policy) → AllZip SamePolicy policies others → (several : Bool) (tasks : List Task) → run_text several policies tasks ≡ run_text several others tasks }
{}

/// For them `check` writes the same text. It does nothing: its contract is a law of the definitions.
pub fn same_policies_check_alike()
    ensures { (policies others : List Policy) → AllZip SamePolicy policies others → (several : Bool) → check_text several policies ≡ check_text several others }
{}

/// Words decide what is written, wherever patterns come to lie: policies that the same words spell have the same texts of `run`,
/// of `check` and of `replay`. It does nothing: its contract is a law of the definitions.
pub fn words_decide_texts()
    ensures { (words : List (List WordData)) (policies others : List Policy) → AllZip Spells words policies → AllZip Spells words others
        → (several : Bool) (capacity : ℕ) (tasks : List Task) (events : List Event)
        → (run_text several policies tasks ≡ run_text several others tasks) × (check_text several policies ≡ check_text several others)
        × (replay_text several policies capacity tasks events ≡ replay_text several others capacity tasks events) }
{}

/// For policies that are the same `replay` writes the same text, whatever the capacity, the tasks and the events. It does
/// nothing: its contract is a law of the definitions.
pub fn same_policies_replay_alike()
    ensures { (policies others : List Policy) → AllZip SamePolicy policies others → (several : Bool) (capacity : ℕ) (tasks : List Task) (events : List Event)
        → replay_text several policies capacity tasks events ≡ replay_text several others capacity tasks events }
{}
