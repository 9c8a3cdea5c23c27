//! What the definitions of the lexer say, in the words of the language.

ghost use Rattle.std.specs.Prelude.{ℕ, List, drop, ◌-◌, [], ◌∷◌, Bool, true, ◌≡◌, ◌↔◌, Some};
ghost use Rattle.aa_words.specs.Runs.{path_len, path_start, quoted_len, skipped_len, is_variable, assigned_len, ends_name, name_len, ends_comment, comment_len, ends_value, value_len, ends_variable, variable_len};
ghost use Rattle.aa_glob.specs.Pieces.{pieces, Use};
ghost use Rattle.aa_policy.specs.Preamble.{Names};
ghost use Rattle.aa_rules.specs.declared.modes.Mode.{Mode};
ghost use Rattle.aa_rules.specs.Modes.{mode_of};
ghost use Rattle.aa_language_laws.specs.Places.{EndsFirst};
ghost use Rattle.aa_language_laws.specs.Paths.{PathEnds, is_in_brackets, OpenBracket, IsInBraces, OpenBrace};
ghost use Rattle.aa_language_laws.specs.Assigned.{IsAssigned};
ghost use Rattle.aa_language_laws.specs.ModeParts.{IsModeOf};
ghost use Rattle.aa_language_laws.specs.PassedOver.{RuleEnds};
ghost use Rattle.aa_language_laws.specs.Quotes.{ClosesQuote};
ghost use Rattle.aa_language_laws.specs.RunEnds.{RunEnds};

/// Behind its first byte a path goes on up to the first place where one ends. It does nothing: its contract is a law of the
/// definitions.
pub fn paths_end_first()
    ensures { (text : List ℕ) → EndsFirst PathEnds text (path_len path_start text) }
{}

/// A place in a path stands in brackets exactly where an opening one lacks its own closing one. It does nothing: its contract
/// is a law of the definitions.
pub fn open_brackets_lack_their_own()
    ensures { (back : List ℕ) → (is_in_brackets back ≡ true) ↔ OpenBracket back }
{}

/// It stands in braces exactly where an opening one lacks its own closing one. It does nothing: its contract is a law of the
/// definitions.
pub fn open_braces_lack_their_own()
    ensures { (back : List ℕ) → IsInBraces back ↔ OpenBrace back }
{}

/// A quoted text is closed by the first quote that no backslash quotes. It does nothing: its contract is a law of the
/// definitions.
pub fn quotes_close_first()
    ensures { (text : List ℕ) (long : ℕ) → (quoted_len text ≡ Some long) ↔ ClosesQuote text long }
{}

/// Names, comments, values and the names of variables go on up to the first byte that ends them. It does nothing: its
/// contract is a law of the definitions.
pub fn runs_end_first()
    ensures names { (text : List ℕ) → EndsFirst (RunEnds ends_name) text (name_len text) }
    ensures comments { (text : List ℕ) → EndsFirst (RunEnds (λ b bs. ends_comment b)) text (comment_len text) }
    ensures values { (text : List ℕ) → EndsFirst (RunEnds ends_value) text (value_len text) }
    ensures variables { (text : List ℕ) → EndsFirst (RunEnds (λ b bs. ends_variable b)) text (variable_len text) }
{}

/// Behind its keyword a rule that is passed over goes on up to the first comma outside quotes, comments, parentheses, braces and
/// brackets. It does nothing: its contract is a law of the definitions.
pub fn passed_over_rules_end_first()
    ensures { (text : List ℕ) → EndsFirst RuleEnds (drop (name_len text) text) (skipped_len text - name_len text) }
{}

/// A text is a mode exactly where it is put together of access letters, an exec part of the table or none, and access letters,
/// without `w` beside `a`; and it says what these say. It does nothing: its contract is a law of the definitions.
pub fn modes_are_their_parts()
    ensures { (deny : Bool) (text : List ℕ) (m : Mode) → (mode_of deny text ≡ Some m) ↔ IsModeOf deny text m }
{}

/// What the lexer takes for a variable, with a sign of assignment behind it or alone, is one that an assignment may name, and
/// one that is looked up where a pattern is expanded. It does nothing: its contract is a law of the definitions.
pub fn variables_are_alike()
    ensures words { (text : List ℕ) → (is_variable text ≡ true) ↔ ((name : List ℕ) × Names text name) }
    ensures assigned { (bytes : List ℕ) (long : ℕ) → (assigned_len bytes ≡ Some long) ↔ IsAssigned bytes long }
    ensures patterns { (text : List ℕ) (name : List ℕ) → (pieces text ≡ Use name ∷ []) ↔ Names text name }
{}
