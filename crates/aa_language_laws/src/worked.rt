//! Examples of what the definitions say.

ghost use Rattle.std.specs.Prelude.{ℕ, List, [], ◌∷◌, codes, None, false, true, ◌≡◌};
ghost use Rattle.aa_base.specs.declared.fault.PolicyKind.TheVariants.{Syntax, Unsupported, UnknownWord, WriteWithAppend};
ghost use Rattle.aa_glob.specs.Pieces.{pieces, Use};
ghost use Rattle.aa_policy.specs.HeadFaults.{flag_word_fault};
ghost use Rattle.aa_policy.specs.Preamble.{Names};
ghost use Rattle.aa_model.specs.declared.rule.ExecKind.TheVariants.{Profile};
ghost use Rattle.aa_model.specs.declared.rule.Fallback.TheVariants.{Inherit};
ghost use Rattle.aa_rules.specs.declared.modes.Mode.{Mode};
ghost use Rattle.aa_rules.specs.Modes.{mode, how};
ghost use Rattle.aa_rules.specs.RuleFaults.{first_name_fault, rule_name_fault, socket_name_fault, NetFails};
ghost use Rattle.aa_words.specs.declared.word.WordKind.TheVariants.{Name, Equals};
ghost use Rattle.aa_language_laws.specs.Names.{name};
ghost use Rattle.aa_language_laws.specs.Places.{EndsFirst};
ghost use Rattle.aa_language_laws.specs.Paths.{PathEnds};
ghost use Rattle.aa_language_laws.specs.ModeParts.{IsModeOf};
ghost use Rattle.aa_language_laws.specs.PassedOver.{RuleEnds};
ghost use Rattle.aa_language_laws.specs.Quotes.{ClosesQuote};

/// Paths behind their first byte: commas in braces, in brackets, behind a backslash and before a letter end none. It does
/// nothing: its contract shows a definition at work.
pub fn worked_paths()
    ensures braces { EndsFirst PathEnds (codes "a{b,c}d, r") 7 }
    ensures brackets { EndsFirst PathEnds (codes "a[,{]b, r") 6 }
    ensures backslash { EndsFirst PathEnds (codes "a\\, r") 3 }
    ensures letter { EndsFirst PathEnds (codes "a,b r") 3 }
{}

/// A quote behind a backslash closes no text in quotes. It does nothing: its contract shows a definition at work.
pub fn worked_quotes()
    ensures { ClosesQuote (codes "a\\\"b\" r") 5 }
{}

/// Behind their keyword rules that are passed over go on over commas in parentheses, quotes, comments, brackets and braces. It
/// does nothing: its contract shows a definition at work.
pub fn worked_rules()
    ensures parentheses { EndsFirst RuleEnds (codes " (send, receive) peer=\"a,b\", /x r,") 27 }
    ensures comment { EndsFirst RuleEnds (codes " # {a, \"b\n[a,b] {c,d}, /x r,") 21 }
    ensures within { EndsFirst RuleEnds (codes " a#b \"#, \" c, r") 12 }
{}

/// Modes, and texts that are none: one with `w` beside `a`, an `x` that doesn't say how, two exec parts. It does nothing: its
/// contract shows a definition at work.
pub fn worked_modes()
    ensures front { IsModeOf false (codes "rwPix") (mode 71 (how Profile true Inherit)) }
    ensures both { IsModeOf false (codes "rpixk") (mode 81 (how Profile false Inherit)) }
    ensures denied { IsModeOf true (codes "rx") (mode 65 None) }
    ensures mixed { (m : Mode) → IsModeOf false (codes "wa") m → ⊥ }
    ensures plain { (m : Mode) → IsModeOf false (codes "rx") m → ⊥ }
    ensures twice { (m : Mode) → IsModeOf false (codes "ixrpx") m → ⊥ }
{}

/// A variable, what a pattern takes for it, and a text that is none. It does nothing: its contract shows a definition at work.
pub fn worked_variables()
    ensures named { Names (codes "@{A_1}") (codes "A_1") }
    ensures pattern { pieces (codes "@{A_1}") ≡ Use (codes "A_1") ∷ [] }
    ensures none { (name : List ℕ) → Names (codes "@{1A}") name → ⊥ }
{}

/// Names with which no rule begins: one that is left out, also before a path; one that no production has; a faulty mode before a
/// path; and one that is out of its place behind `owner`. It does nothing: its contract shows definitions at work.
pub fn worked_first_names()
    ensures left_out { first_name_fault false true (codes "all") ≡ Unsupported }
    ensures unknown { first_name_fault false false (codes "rw") ≡ UnknownWord }
    ensures faulty { first_name_fault false true (codes "wa") ≡ WriteWithAppend }
    ensures owned { rule_name_fault true false false (codes "change_profile") ≡ Syntax }
{}

/// Names of sockets: one of a condition, a family out of its place, and one that no table has; and with which of two names a rule
/// stands for nothing. It does nothing: its contract shows definitions at work.
pub fn worked_socket_names()
    ensures condition { socket_name_fault (codes "peer") ≡ Unsupported }
    ensures family { socket_name_fault (codes "inet") ≡ Syntax }
    ensures unknown { socket_name_fault (codes "inet4") ≡ UnknownWord }
    ensures first { NetFails (name (codes "peer") ∷ name (codes "inet") ∷ []) Unsupported (name (codes "peer") ∷ name (codes "inet") ∷ []) }
    ensures second { NetFails (name (codes "stream") ∷ name (codes "inet") ∷ []) Syntax (name (codes "inet") ∷ []) }
{}

/// Words among flags: one that is left out, one that is none, and the sign behind a flag and before all. It does nothing: its
/// contract shows a definition at work.
pub fn worked_flags()
    ensures left_out { flag_word_fault false Name (codes "kill") ≡ Unsupported }
    ensures unknown { flag_word_fault true Name (codes "fast") ≡ UnknownWord }
    ensures behind { flag_word_fault true Equals [] ≡ Unsupported }
    ensures before { flag_word_fault false Equals [] ≡ Syntax }
{}
